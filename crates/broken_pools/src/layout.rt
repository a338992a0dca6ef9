// Three keys of each kind, two that are equal, the top, and a lower one, and the chain of the lower one.
ghost use Rattle.std.specs.Prelude.{◌<◌};

use keys::{Kind, KindName, REVERSED, Table, Words};

// The planning desk's table: a day of 32 bits, a road of 16 and a reversed priority of 8, 56 bits
// together, so that its keys lie in the second word.
pub fn planning() -> Table {
    Table::of(32, 16, 8 + REVERSED, 0)
}

// Day 3, road 2, priority 8: 3 * 2 ^ 24 + 2 * 2 ^ 8 + 8; and the same with priority 15.
const URGENT: u64 = 50332168;

const LATER: u64 = 50332175;

// The floats -1.0 and -1.5.
pub const MINUS_ONE: u64 = 0xbff0_0000_0000_0000;

const LOWER: u64 = 0xbff8_0000_0000_0000;

// Where the keys lie in a pool of five slots.
#[derive(Clone, Copy)]
pub struct Layout {
    pub keys: [u64; 10],
    pub top: Words,
    pub lower: Words,
    // The chain of the lower key: the bucket of the highest bit where it differs from the top.
    pub chain: usize,
    // The busy words with entries in bucket 0 and on that chain.
    pub busy: [u64; 3],
    pub ghost chain_bound: { chain < 131 },
}

impl Layout {
    // Keys of one word.
    pub fn one_word(top: u64, lower: u64, chain: usize, busy: [u64; 3]) -> Layout
        requires { chain < 131 }
    {
        Layout {
            keys: [top, top, lower, 0, 0, 0, 0, 0, 0, 0],
            top: Words::from(top),
            lower: Words::from(lower),
            chain,
            busy,
        }
    }

    // Keys of two words.
    pub fn two_words(top: Words, lower: Words, chain: usize, busy: [u64; 3]) -> Layout
        requires { chain < 131 }
    {
        let (a, b) = (top.first, top.second);
        Layout {
            keys: [a, b, a, b, lower.first, lower.second, 0, 0, 0, 0],
            top,
            lower,
            chain,
            busy,
        }
    }

    // Kind 3 is reversed, and so is the last part of kind 5; the floats are below zero. So their lower key
    // is the greater number in words.
    pub fn of(kind: Kind) -> Layout {
        match kind.name() {
            KindName::Plain | KindName::Signed => Layout::one_word(8, 7, 4, [17, 0, 0]),
            KindName::Reversed => Layout::one_word(8, 15, 3, [9, 0, 0]),
            KindName::Float => Layout::one_word(MINUS_ONE, LOWER, 52, [(1 << 52) + 1, 0, 0]),
            KindName::Pair => Layout::two_words(words(8, 5), words(7, 9), 68, [1, 16, 0]),
            KindName::Mixed => Layout::two_words(words(0, URGENT), words(0, LATER), 3, [9, 0, 0]),
        }
    }

    // The lower key stands on another chain.
    pub fn moved_to(mut self, chain: usize, busy: [u64; 3]) -> Layout
        requires { chain < 131 }
    {
        self.chain = chain;
        self.busy = busy;
        self
    }
}

pub fn words(first: u64, second: u64) -> Words {
    Words { first, second }
}
