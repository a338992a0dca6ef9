// Kind 6: an f64, held as its 64 bits. Minus zero stands just below plus zero.
ghost use Rattle.std.specs.Prelude.{◌≡◌};
ghost use Rattle.keys.specs.Floats.{float_form, is_nan};

use crate::key::Key;
use crate::words::apart;

#[derive(Clone, Copy, PartialEq, Eq, Debug)]
pub struct Float(pub u64);

impl From<u64> for Float {
    ghost from_gives = { λ word key. key.0 ≡ word };

    fn from(word: u64) -> Float {
        Float(word)
    }
}

impl From<Float> for u64 {
    ghost from_gives = { λ key word. word ≡ key.0 };

    fn from(key: Float) -> u64 {
        key.0
    }
}

impl Float {
    // Without its sign bit, a NaN's pattern is above the infinity's.
    pub fn is_nan(self) -> bool
        ensures { result ≡ is_nan self.0 }
    {
        9218868437227405312 < self.0 % 9223372036854775808
    }

    // Sign bit clear: the pattern plus 2^63. Sign bit set: 2^64 - 1 minus the pattern.
    fn form(self) -> u64
        ensures { result ≡ float_form self.0 }
    {
        if self.0 < 9223372036854775808 {
            return self.0 + 9223372036854775808;
        }
        18446744073709551615 - self.0
    }
}

impl Key for Float {
    ghost width = { 64 };

    ghost form = { λ key. float_form key.0 };

    fn above(self, other: Float) -> bool {
        self.form() > other.form()
    }

    // The patterns are measured as they are: two of one sign have the same bits flipped in their ordered
    // forms, and two of different signs differ in the highest bit both ways.
    fn distance(self, other: Float) -> u32 {
        apart(self.0, other.0)
    }
}
