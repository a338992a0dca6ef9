// Keys of a kind, read by their words. A `Reader` has the masks of the kind at hand, for loops over many
// keys. Kind 5 is told apart first, so that a loop over keys of another kind has no trace of it.
ghost use Rattle.std.specs.Prelude.{◌≡◌, ◌≢◌, ltb};
ghost use Rattle.rule.specs.Width.{distance as apart};
ghost use Rattle.keys.specs.Ordered.{width, ordered, well_formed, nan_key, proper};
ghost use Rattle.keys.specs.Masks.{Reads};

use crate::float_key::Float;
use crate::key::Key;
use crate::kind::{Kind, KindName};
use crate::mask::{Masks, kind_masks};
use crate::mixed_key::Mixed;
use crate::pair_key::Pair;
use crate::plain_key::Plain;
use crate::reversed_key::Reversed;
use crate::signed_key::Signed;
use crate::words::Words;

// A kind, with the masks that its keys are read by.
#[derive(Clone, Copy)]
pub struct Reader {
    pub kind: Kind,
    pub masks: Masks,
    pub ghost reads: { Reads masks kind },
}

// Is the first key above the second, in every kind but 5?
pub fn above_bare(kind: Kind, a: Words, b: Words) -> bool
    requires { kind.number ≢ 5 }
    ensures { result ≡ ltb (ordered kind b.first b.second) (ordered kind a.first a.second) }
{
    match kind.name() {
        KindName::Signed => Signed::from(a.first).above(Signed::from(b.first)),
        KindName::Reversed => Reversed(a.first).above(Reversed(b.first)),
        KindName::Pair => Pair::from(a).above(Pair::from(b)),
        KindName::Float => Float(a.first).above(Float(b.first)),
        _ => Plain(a.first).above(Plain(b.first)),
    }
}

// How far are the two keys apart, in every kind but 5?
pub fn distance_bare(kind: Kind, a: Words, b: Words) -> u32
    requires { kind.number ≢ 5 }
    ensures { result ≡ apart (width kind) (ordered kind a.first a.second) (ordered kind b.first b.second) }
{
    match kind.name() {
        KindName::Signed => Signed::from(a.first).distance(Signed::from(b.first)),
        KindName::Reversed => Reversed(a.first).distance(Reversed(b.first)),
        KindName::Pair => Pair::from(a).distance(Pair::from(b)),
        KindName::Float => Float(a.first).distance(Float(b.first)),
        _ => Plain(a.first).distance(Plain(b.first)),
    }
}

// Is the key a NaN?
pub fn is_nan(kind: Kind, key: Words) -> bool
    ensures { result ≡ nan_key kind key.first }
{
    match kind.name() {
        KindName::Float => Float(key.first).is_nan(),
        _ => false,
    }
}

impl Reader {
    pub fn of(kind: Kind) -> Reader
        ensures { result.kind ≡ kind }
    {
        Reader {
            kind,
            masks: kind_masks(kind),
        }
    }

    // Is the first key above the second?
    pub fn above(self, a: Words, b: Words) -> bool
        ensures { result ≡ ltb (ordered self.kind b.first b.second) (ordered self.kind a.first a.second) }
    {
        match self.kind.name() {
            KindName::Mixed => Mixed::from(a).above(self.masks, Mixed::from(b)),
            _ => above_bare(self.kind, a, b),
        }
    }

    // How far are the two keys apart?
    pub fn distance(self, a: Words, b: Words) -> u32
        ensures { result ≡ apart (width self.kind) (ordered self.kind a.first a.second) (ordered self.kind b.first b.second) }
    {
        match self.kind.name() {
            KindName::Mixed => Mixed::from(a).distance(self.masks, Mixed::from(b)),
            _ => distance_bare(self.kind, a, b),
        }
    }

    // Has the key no bit that its kind does not have?
    pub fn well_formed(self, key: Words) -> bool
        ensures { result ≡ well_formed self.kind key.first key.second }
    {
        match self.kind.name() {
            KindName::Mixed => Mixed::from(key).holds(self.masks),
            KindName::Pair => true,
            _ => key.second == 0,
        }
    }

    // May the key stand in a pool, and as the top?
    pub fn is_proper(self, key: Words) -> bool
        ensures { result ≡ proper self.kind key.first key.second }
    {
        self.well_formed(key) && !is_nan(self.kind, key)
    }
}
