// The pool that a caller lends: four slices for n slots. There are n key words, 2n in kinds 4 and 5, and
// n values, next links and back links. A link is 0 for none, else a slot's number plus one.
ghost use Rattle.std.specs.Prelude.{◌≡◌};

use keys::Words;

// The pool, lent to be changed.
#[derive(Drop)]
pub struct Pool<'a> {
    pub keys: &'a mut [u64],
    pub values: &'a mut [u64],
    pub next: &'a mut [u32],
    pub back: &'a mut [u32],
}

// The pool, lent to be read.
#[derive(Clone, Copy)]
pub struct View<'a> {
    pub keys: &'a [u64],
    pub values: &'a [u64],
    pub next: &'a [u32],
    pub back: &'a [u32],
}

// A message: the words of its key, and its value.
#[derive(Clone, Copy, PartialEq, Eq, Debug)]
pub struct Entry {
    pub key: Words,
    pub value: u64,
}

impl Pool<'_> {
    pub fn view(&self) -> View<'_>
        ensures keys { result.keys.now ≡ self.now.keys.now }
        ensures values { result.values.now ≡ self.now.values.now }
        ensures next { result.next.now ≡ self.now.next.now }
        ensures back { result.back.now ≡ self.now.back.now }
    {
        View {
            keys: self.keys,
            values: self.values,
            next: self.next,
            back: self.back,
        }
    }
}
