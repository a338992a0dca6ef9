// A key made from its word or words gives them back, and a signed number comes back from its word. The
// parts of a mixed key come back from its words, and its words from the parts.
ghost use Rattle.std.specs.Prelude.{◌≡◌, true, is_some, IfSome, Some};
ghost use Rattle.keys.specs.Table.{table_fits, mixed};
ghost use Rattle.keys.specs.Ordered.{well_formed};
ghost use Rattle.keys.specs.Packing.{parts_fit};

use keys::{Mixed, Parts, Signed, Table};

// What a key is made from, at a type whose two conversions undo each other. A signed number's do so only
// for words and numbers of 64 bits, which the clause cannot say of every `W`: it has functions of its own.
pub fn round<K: From<W>, W: From<K>>(w: W) -> W
    requires { (key : K) (back : W) → K.from_gives w key → W.from_gives key back → back ≡ w }
    ensures { result ≡ w }
{
    W::from(K::from(w))
}

pub fn signed_round(word: u64) -> u64
    ensures { result ≡ word }
{
    u64::from(Signed::from(word))
}

// The other way round.
pub fn number_round(z: i64) -> i64
    ensures { result ≡ z }
{
    Signed::from(u64::from(Signed(z))).0
}

// Parts come back if they fit their table, and others are refused.
pub fn parts_round(table: Table, parts: Parts) -> Option<Parts>
    ensures fits { is_some result ≡ parts_fit table parts }
    ensures back { IfSome result (λ back. back ≡ parts) }
{
    let key = keys::pack(table, parts)?;
    Some(keys::unpack(table, key))
}

// The other way round: a key with no bit above the total of a table within its limits.
pub fn mixed_round(table: Table, key: Mixed) -> Option<Mixed>
    ensures { table_fits table ≡ true → well_formed (mixed table) key.0 key.1 ≡ true → result ≡ Some key }
{
    keys::pack(table, keys::unpack(table, key))
}
