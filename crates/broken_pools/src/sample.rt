// Sound pools of five slots, laid out by hand: slots 0, 1 and 2 hold entries, 3 and 4 are free.
ghost use Rattle.std.specs.Prelude.{◌<◌};

use crate::layout::Layout;
use keys::Kind;
use pool::{CHAINS, FREE, Head, Refusal, State, View, WAITING};

// A state and a pool as one value, so that a clause can be broken by one store.
#[derive(Clone, Copy)]
pub struct Sample {
    // The kind that it is laid out for, whatever the head says.
    pub kind: Kind,
    pub state: State,
    pub keys: [u64; 10],
    pub values: [u64; 5],
    pub next: [u32; 5],
    pub back: [u32; 5],
}

impl Sample {
    // With a top: the two equal keys in bucket 0, the lower one on its own chain.
    pub fn laid_out(kind: Kind, layout: Layout) -> Sample {
        let Layout {
            keys,
            top,
            chain,
            busy,
            ..
        } = layout;
        let mut first = [0; CHAINS];
        let mut last = [0; CHAINS];
        (first[0], last[0]) = (1, 2);
        (first[FREE], last[FREE]) = (4, 5);
        (first[chain], last[chain]) = (3, 3);
        let head = Head {
            kind,
            len: 3,
            topped: true,
            top0: top.first,
            top1: top.second,
        };
        Sample {
            kind,
            state: State {
                head,
                first,
                last,
                busy,
            },
            keys,
            values: [11, 12, 13, 0, 0],
            next: [2, 0, 0, 5, 0],
            back: [0, 1, 0, 0, 0],
        }
    }

    pub fn with_top(kind: Kind) -> Sample {
        Sample::laid_out(kind, Layout::of(kind))
    }

    // With no top: the three wait.
    pub fn waiting(kind: Kind) -> Sample {
        let keys = Layout::of(kind).keys;
        let mut first = [0; CHAINS];
        let mut last = [0; CHAINS];
        (first[WAITING], last[WAITING]) = (1, 3);
        (first[FREE], last[FREE]) = (4, 5);
        let head = Head {
            kind,
            len: 3,
            topped: false,
            top0: 0,
            top1: 0,
        };
        Sample {
            kind,
            state: State {
                head,
                first,
                last,
                busy: [0; 3],
            },
            keys,
            values: [11, 12, 13, 0, 0],
            next: [2, 3, 0, 5, 0],
            back: [0, 1, 2, 0, 0],
        }
    }

    // With no entry: all five slots are free.
    pub fn emptied(self) -> Sample {
        let mut state = self.state;
        state.head.len = 0;
        state.first = [0; CHAINS];
        state.last = [0; CHAINS];
        state.busy = [0; 3];
        (state.first[FREE], state.last[FREE]) = (1, 5);
        Sample {
            kind: self.kind,
            state,
            keys: [0; 10],
            values: [0; 5],
            next: [2, 3, 4, 5, 0],
            back: [0; 5],
        }
    }

    // The same with one change.
    pub fn with<F: FnOnce(&mut Sample)>(self, change: F) -> Sample
        requires { F.IsAlwaysCallable change }
    {
        let mut sample = self;
        change(&mut sample);
        sample
    }

    // The pool, with as many key words as keys of its kind take.
    pub fn view(&self) -> View<'_> {
        let Sample {
            keys,
            values,
            next,
            back,
            ..
        } = self;
        let count = if keys::is_wide(self.kind) { 10 } else { 5 };
        View {
            keys: &keys[..count],
            values,
            next,
            back,
        }
    }

    pub fn told(&self) -> Result<(), Refusal> {
        pool::examine(&self.state, self.view())
    }
}

// How many of the samples that a number below `count` gives are not sound.
pub fn unsound<F: Fn(usize) -> Sample>(count: usize, sample_at: F) -> usize
    requires { F.IsAlwaysCallable sample_at }
{
    (0..count)
        .filter(|&at| sample_at(at).told() == Err(Refusal::Unsound))
        .count()
}
