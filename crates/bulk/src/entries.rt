// Entries that are lent to a bulk push: a slice of them, or three slices with a field each.
ghost use Rattle.std.specs.Prelude.{◌≡◌, List, ◌<◌, length, slice_index_or};
ghost use Rattle.pool.specs.declared.lent.Entry.{Entry};
ghost use Rattle.bulk.specs.Wide.{zipped, no_entry};

use keys::Words;
use pool::Entry;

// A list of entries that is read one by one.
pub trait Entries {
    ghost entries: { Self → List Entry };

    fn count(&self) -> usize
        ensures { result ≡ length (entries self.now) };

    fn entry(&self, i: usize) -> Entry
        requires { i < length (entries self.now) }
        ensures { result ≡ slice_index_or (entries self.now) i no_entry };
}

// Entry i is `keys0[i]`, `keys1[i]`, `values[i]`, for i below the shortest of the three lengths.
#[derive(Clone, Copy)]
pub struct Wide<'a> {
    pub keys0: &'a [u64],
    pub keys1: &'a [u64],
    pub values: &'a [u64],
}

impl Entries for &[Entry] {
    ghost entries = { λ e. e.now };

    fn count(&self) -> usize {
        self.len()
    }

    fn entry(&self, i: usize) -> Entry {
        self[i]
    }
}

impl Entries for Wide<'_> {
    ghost entries = { λ w. zipped w.keys0.now w.keys1.now w.values.now };

    fn count(&self) -> usize {
        self.keys0
            .len()
            .min(self.keys1.len())
            .min(self.values.len())
    }

    fn entry(&self, i: usize) -> Entry {
        Entry {
            key: Words {
                first: self.keys0[i],
                second: self.keys1[i],
            },
            value: self.values[i],
        }
    }
}
