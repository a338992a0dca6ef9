// Kind 2: a signed number, held in a word as its two's complement pattern.
ghost use Rattle.std.specs.Prelude.{◌≡◌, ◌^◌, pos, ◌+ℤ◌};
ghost use Rattle.keys.specs.Parts.{signed, formed};
ghost use Rattle.keys.specs.Ordered.{ordered_number};

use crate::key::Key;
use crate::words::apart;

#[derive(Clone, Copy, PartialEq, Eq, PartialOrd, Ord, Debug)]
pub struct Signed(pub i64);

// "The number plus 2^63" is the ordered form of the word.
impl From<u64> for Signed {
    ghost from_gives = { λ word key. key.0 +ℤ pos (2 ^ 63) ≡ pos (formed 64 signed word) };

    fn from(word: u64) -> Signed {
        Signed(word.cast_signed())
    }
}

impl From<Signed> for u64 {
    ghost from_gives = { λ key word. key.0 +ℤ pos (2 ^ 63) ≡ pos (formed 64 signed word) };

    fn from(key: Signed) -> u64 {
        key.0.cast_unsigned()
    }
}

impl Key for Signed {
    ghost width = { 64 };

    ghost form = { λ key. ordered_number key.0 };

    fn above(self, other: Signed) -> bool {
        self.0 > other.0
    }

    fn distance(self, other: Signed) -> u32 {
        apart(u64::from(self), u64::from(other))
    }
}
