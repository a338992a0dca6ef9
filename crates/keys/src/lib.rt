// The six kinds of key that a heap may hold: made from their words, compared and measured.
//
// Each kind is a type of its own, so a plain key and a reversed one cannot be mixed. The calls of a
// heap hand keys over as two words with the kind, its number and its table; `above` and `distance`
// lead from there to the types. Any numbers may be handed in: no function that a caller needs has a
// `requires`. No heap has a kind that is not 1 to 6, or a table that breaks its limits: they are
// refused with code 1 before a key is compared. Here such a kind is read as 1, and such a table as
// two words.
#![tactic(auto)]

mod float_key;
mod key;
mod kind;
mod mask;
mod mixed_key;
mod packing;
mod pair_key;
mod plain_key;
mod reading;
mod reversed_key;
mod signed_key;
mod table;
mod words;

ghost use Rattle.std.specs.Prelude.{◌≡◌, ltb};
ghost use Rattle.rule.specs.Width.{distance as apart};
ghost use Rattle.keys.specs.Ordered.{is_wide, width, ordered, well_formed, proper};

pub use float_key::Float;
pub use key::Key;
pub use kind::{Kind, KindName, REVERSED, SIGNED, Table, UNSIGNED};
pub use mask::{Masks, kind_masks, table_masks};
pub use mixed_key::Mixed;
pub use packing::{Parts, pack, parts_fit, unpack};
pub use pair_key::Pair;
pub use plain_key::Plain;
pub use reading::{Reader, above_bare, distance_bare, is_nan};
pub use reversed_key::Reversed;
pub use signed_key::Signed;
pub use table::kind_fits;
pub use words::Words;

// Does a key of this kind take two words?
pub fn is_wide(kind: Kind) -> bool
    ensures { result ≡ is_wide kind }
{
    matches!(kind.name(), KindName::Pair | KindName::Mixed)
}

// Is the first key above the second?
pub fn above(kind: Kind, a: Words, b: Words) -> bool
    ensures { result ≡ ltb (ordered kind b.first b.second) (ordered kind a.first a.second) }
{
    Reader::of(kind).above(a, b)
}

// The place of the highest bit, counted from 1, where the ordered forms of two keys differ; 0 if
// they are equal.
pub fn distance(kind: Kind, a: Words, b: Words) -> u32
    ensures { result ≡ apart (width kind) (ordered kind a.first a.second) (ordered kind b.first b.second) }
{
    Reader::of(kind).distance(a, b)
}

// A key of one word has second word 0, and a mixed key no bit above its total: else code 5.
pub fn well_formed(kind: Kind, key: Words) -> bool
    ensures { result ≡ well_formed kind key.first key.second }
{
    Reader::of(kind).well_formed(key)
}

// A key that may stand in a pool, and as the top: else code 2.
pub fn is_proper(kind: Kind, key: Words) -> bool
    ensures { result ≡ proper kind key.first key.second }
{
    Reader::of(kind).is_proper(key)
}
