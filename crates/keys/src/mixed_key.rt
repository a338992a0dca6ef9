// Kind 5: a key of two to four parts, packed high part first into two words. It compares and is
// measured as its ordered form, which the masks of its kind give word by word.
ghost use Rattle.std.specs.Prelude.{◌≡◌, not, ltb};
ghost use Rattle.rule.specs.Width.{distance as apart};
ghost use Rattle.keys.specs.Ordered.{pair_form};
ghost use Rattle.keys.specs.Masks.{masked};

use crate::key::Key;
use crate::mask::Masks;
use crate::pair_key::Pair;
use crate::words::Words;

#[derive(Clone, Copy, PartialEq, Eq, Debug)]
pub struct Mixed(pub u64, pub u64);

impl From<Words> for Mixed {
    ghost from_gives = { λ words key. (key.0 ≡ words.first) × (key.1 ≡ words.second) };

    fn from(words: Words) -> Mixed {
        Mixed(words.first, words.second)
    }
}

impl From<Mixed> for Words {
    ghost from_gives = { λ key words. (words.first ≡ key.0) × (words.second ≡ key.1) };

    fn from(key: Mixed) -> Words {
        Words {
            first: key.0,
            second: key.1,
        }
    }
}

impl Mixed {
    // The ordered form: the key's own bits, with those flipped that its signed and reversed parts flip.
    pub fn form(self, masks: Masks) -> Pair
        ensures { pair_form result.0 result.1 ≡ masked masks self.0 self.1 }
    {
        Pair(
            (self.0 & masks.full.0) ^ masks.flip.0,
            (self.1 & masks.full.1) ^ masks.flip.1,
        )
    }

    // Is no bit set above the parts' total?
    pub fn holds(self, masks: Masks) -> bool
        ensures { result ≡ not (ltb (pair_form masks.full.0 masks.full.1) (pair_form self.0 self.1)) }
    {
        !Pair(self.0, self.1).above(masks.full)
    }

    pub fn above(self, masks: Masks, other: Mixed) -> bool
        ensures { result ≡ ltb (masked masks other.0 other.1) (masked masks self.0 self.1) }
    {
        self.form(masks).above(other.form(masks))
    }

    pub fn distance(self, masks: Masks, other: Mixed) -> u32
        ensures { result ≡ apart 128 (masked masks self.0 self.1) (masked masks other.0 other.1) }
    {
        self.form(masks).distance(other.form(masks))
    }
}
