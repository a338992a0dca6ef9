// The state of a heap, which goes into a call by value and comes back by value.
ghost use Rattle.std.specs.Prelude.{◌≡◌};
ghost use Rattle.pool.specs.World.{chain_set};
ghost use Rattle.pool.specs.Fresh.{top_shown};

use keys::{Kind, Words};

// The most slots that a pool may have.
pub const LIMIT: usize = 4096;

// The chains: the buckets are 0 to 128, then the waiting chain and the free chain.
pub const WAITING: usize = 129;

pub const FREE: usize = 130;

pub const CHAINS: usize = 131;

// What a state holds besides its links: the kind of key, how many entries, and the top, if there is one.
// The top is a flag and two words, because any state may be handed in: one whose words are set though
// there is no top is told 2.
#[derive(Clone, Copy, PartialEq, Eq, Debug)]
pub struct Head {
    pub kind: Kind,
    pub len: u32,
    pub topped: bool,
    pub top0: u64,
    pub top1: u64,
}

impl Head {
    // The top, if there is one.
    #[tactic(auto, unfolding(crate::specs::Fresh::top_shown))]
    pub fn top(self) -> Option<Words>
        ensures { result ≡ top_shown self }
    {
        if self.topped {
            return Some(self.top_words());
        }
        None
    }

    // The same head, made from its fields, for callers that hand heads on by value: a copy of the whole
    // carries its padding along (docs/PERFORMANCE.md).
    pub fn anew(self) -> Head
        ensures { result ≡ self }
    {
        Head {
            kind: self.kind,
            len: self.len,
            topped: self.topped,
            top0: self.top0,
            top1: self.top1,
        }
    }

    // The words of the top, whether or not there is one.
    pub fn top_words(self) -> Words
        ensures first { result.first ≡ self.top0 }
        ensures second { result.second ≡ self.top1 }
    {
        Words {
            first: self.top0,
            second: self.top1,
        }
    }
}

// A link is 0 for none, else a slot's number plus one. `first` and `last` have one of each chain.
// Bit b of the three words of `busy` is set exactly when bucket b is not empty.
#[derive(Clone, Copy, PartialEq, Eq, Debug)]
pub struct State {
    pub head: Head,
    pub first: [u32; 131],
    pub last: [u32; 131],
    pub busy: [u64; 3],
}

impl State {
    // The state with other ends of one chain. The busy words are not its affair, nor are the links
    // between the ends.
    #[tactic(auto, using(crate::proofs::CodeState::chain_past), unfolding(crate::specs::World::chain_set))]
    pub fn with_chain(self, chain: usize, first: u32, last: u32) -> State
        ensures { result ≡ chain_set self chain first last }
    {
        if CHAINS <= chain {
            return self;
        }
        let mut s = self;
        s.first[chain] = first;
        s.last[chain] = last;
        s
    }
}

// What a call gives: what it was told, and the state afterwards.
#[derive(Clone, Copy)]
pub struct Answer<T, E> {
    pub told: Result<T, E>,
    pub state: State,
}
