// A key as the calls of a heap take and give it, and the distance of two words.
ghost use Rattle.std.specs.Prelude.{◌≡◌};
ghost use Rattle.rule.specs.Width.{distance};

// A key's words. In kinds of one word the second is 0; a mixed key of 64 bits or less stands in the
// second.
#[derive(Clone, Copy, PartialEq, Eq, Debug)]
pub struct Words {
    pub first: u64,
    pub second: u64,
}

// A key of one word.
impl From<u64> for Words {
    ghost from_gives = { λ word words. (words.first ≡ word) × (words.second ≡ 0) };

    fn from(word: u64) -> Words {
        Words {
            first: word,
            second: 0,
        }
    }
}

// "B minus the number of equal high bits": the differing bits are those of `a ^ b`, and its leading
// zeros are the equal high bits.
pub fn apart(a: u64, b: u64) -> u32
    ensures { result ≡ distance 64 a b }
{
    64 - (a ^ b).leading_zeros()
}
