// Kind 3: a reversed number, as a release time. The smaller number is the greater key.
ghost use Rattle.std.specs.Prelude.{◌≡◌};
ghost use Rattle.keys.specs.Parts.{reversed, formed};

use crate::key::Key;
use crate::words::apart;

#[derive(Clone, Copy, PartialEq, Eq, Debug)]
pub struct Reversed(pub u64);

impl From<u64> for Reversed {
    ghost from_gives = { λ word key. key.0 ≡ word };

    fn from(word: u64) -> Reversed {
        Reversed(word)
    }
}

impl From<Reversed> for u64 {
    ghost from_gives = { λ key word. word ≡ key.0 };

    fn from(key: Reversed) -> u64 {
        key.0
    }
}

impl Key for Reversed {
    ghost width = { 64 };

    ghost form = { λ key. formed 64 reversed key.0 };

    fn above(self, other: Reversed) -> bool {
        self.0 < other.0
    }

    fn distance(self, other: Reversed) -> u32 {
        apart(self.0, other.0)
    }
}
