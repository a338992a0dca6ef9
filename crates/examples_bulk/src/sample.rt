// A pool of four slots with its state, by value.
use keys::{Kind, Words};
use pool::{Pool, State};

#[derive(Clone, Copy, PartialEq, Eq)]
pub struct Slots {
    keys: [u64; 4],
    values: [u64; 4],
    next: [u32; 4],
    back: [u32; 4],
}

impl Slots {
    fn zero() -> Slots {
        Slots {
            keys: [0; 4],
            values: [0; 4],
            next: [0; 4],
            back: [0; 4],
        }
    }

    pub fn lend(&mut self) -> Pool<'_> {
        Pool {
            keys: self.keys.as_mut_slice(),
            values: self.values.as_mut_slice(),
            next: self.next.as_mut_slice(),
            back: self.back.as_mut_slice(),
        }
    }
}

#[derive(Clone, Copy, PartialEq, Eq)]
pub struct Sample {
    pub state: State,
    pub slots: Slots,
}

impl Sample {
    // A fresh heap of this kind with this top.
    pub fn fresh(kind: u32, top: u64) -> Sample {
        let mut slots = Slots::zero();
        let answer = heap::new_at(Kind::bare(kind), Words::from(top), &mut slots.lend());
        Sample {
            state: answer.state,
            slots,
        }
    }
}
