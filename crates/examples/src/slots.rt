// The arrays of a pool of N slots with keys of one word, lent to a heap for one call at a time.
use pool::{Pool, View};

#[derive(Clone, Copy, PartialEq, Eq)]
pub struct Slots<const N: usize> {
    pub keys: [u64; N],
    pub values: [u64; N],
    pub next: [u32; N],
    pub back: [u32; N],
}

impl<const N: usize> Slots<N> {
    // Each word and link is this number.
    pub fn filled_with(number: u32) -> Slots<N> {
        let word = u64::from(number);
        Slots {
            keys: [word; N],
            values: [word; N],
            next: [number; N],
            back: [number; N],
        }
    }

    pub fn lend(&mut self) -> Pool<'_> {
        Pool {
            keys: &mut self.keys,
            values: &mut self.values,
            next: &mut self.next,
            back: &mut self.back,
        }
    }

    pub fn view(&self) -> View<'_> {
        View {
            keys: &self.keys,
            values: &self.values,
            next: &self.next,
            back: &self.back,
        }
    }
}
