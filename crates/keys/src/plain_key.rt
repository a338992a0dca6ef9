// Kind 1: a plain number. The greater number is the greater key.
ghost use Rattle.std.specs.Prelude.{◌≡◌};
ghost use Rattle.keys.specs.Parts.{unsigned, formed};

use crate::key::Key;
use crate::words::apart;

#[derive(Clone, Copy, PartialEq, Eq, PartialOrd, Ord, Debug)]
pub struct Plain(pub u64);

impl From<u64> for Plain {
    ghost from_gives = { λ word key. key.0 ≡ word };

    fn from(word: u64) -> Plain {
        Plain(word)
    }
}

impl From<Plain> for u64 {
    ghost from_gives = { λ key word. word ≡ key.0 };

    fn from(key: Plain) -> u64 {
        key.0
    }
}

impl Key for Plain {
    ghost width = { 64 };

    ghost form = { λ key. formed 64 unsigned key.0 };

    fn above(self, other: Plain) -> bool {
        self.0 > other.0
    }

    fn distance(self, other: Plain) -> u32 {
        apart(self.0, other.0)
    }
}
