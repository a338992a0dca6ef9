// Kind 4: a pair of words. The first words decide, and the second ones where those are equal.
ghost use Rattle.std.specs.Prelude.{◌≡◌};
ghost use Rattle.keys.specs.Ordered.{pair_form};

use crate::key::Key;
use crate::words::{Words, apart};

#[derive(Clone, Copy, PartialEq, Eq, Debug)]
pub struct Pair(pub u64, pub u64);

impl From<Words> for Pair {
    ghost from_gives = { λ words key. (key.0 ≡ words.first) × (key.1 ≡ words.second) };

    fn from(words: Words) -> Pair {
        Pair(words.first, words.second)
    }
}

impl From<Pair> for Words {
    ghost from_gives = { λ key words. (words.first ≡ key.0) × (words.second ≡ key.1) };

    fn from(key: Pair) -> Words {
        Words {
            first: key.0,
            second: key.1,
        }
    }
}

impl Key for Pair {
    ghost width = { 128 };

    ghost form = { λ key. pair_form key.0 key.1 };

    fn above(self, other: Pair) -> bool {
        if self.0 == other.0 {
            return self.1 > other.1;
        }
        self.0 > other.0
    }

    // One count of leading zeros: of the first words' differing bits, or, where those words are equal, of
    // the second words'.
    fn distance(self, other: Pair) -> u32 {
        if self.0 == other.0 {
            return apart(self.1, other.1);
        }
        64 + apart(self.0, other.0)
    }
}
