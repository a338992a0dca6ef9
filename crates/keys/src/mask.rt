// What the code computes from the table of a mixed key, once for many keys: the bits that are a key's
// own, and those that its ordered form flips.
ghost use Rattle.std.specs.Prelude.{◌≡◌, true, ◌+◌, ◌*◌, ◌-◌, ◌^◌, ◌≤◌, ◌<◌};
ghost use Rattle.keys.specs.Parts.{formed};
ghost use Rattle.keys.specs.Table.{code_bits, code_sort, is_part, table_parts, table_fits, two_words, mixed_parts};
ghost use Rattle.keys.specs.Ordered.{pair_form};
ghost use Rattle.keys.specs.Masks.{Shifts, Masked, Reads};

use crate::kind::{Kind, KindName, REVERSED, SIGNED, Table};
use crate::pair_key::Pair;
use crate::table::{bits, table_fits};

// Of a mixed key's two words: the bits that are its own, and those that its ordered form flips.
#[derive(Clone, Copy, PartialEq, Eq, Debug)]
pub struct Masks {
    pub full: Pair,
    pub flip: Pair,
}

// All of so many low bits set.
pub fn ones(bits: u64) -> u64
    requires { (1 ≤ bits) × (bits ≤ 64) }
    ensures { result ≡ 2 ^ bits - 1 }
{
    u64::MAX >> (64 - bits)
}

// The bits that the ordered form flips in the part with this code.
fn part_flip(code: u8) -> u64
    requires { is_part code ≡ true }
    ensures { result ≡ formed (code_bits code) (code_sort code) 0 }
{
    let b = bits(code);
    match code % 8 {
        REVERSED => ones(b),
        SIGNED => 1 << (b - 1),
        _ => 0,
    }
}

// The number of two words, moved up by so many bits, with `below` under it.
pub fn shifted(number: Pair, bits: u64, below: u64) -> Pair
    requires { Shifts number.0 number.1 bits below }
    ensures { pair_form result.0 result.1 ≡ pair_form number.0 number.1 * 2 ^ bits + below }
{
    let Pair(high, low) = number;
    if bits == 64 {
        return Pair(low, below);
    }
    Pair((high << bits) + (low >> (64 - bits)), (low << bits) + below)
}

// The masks with one more part, below the others.
fn with_part(m: Masks, code: u8) -> Masks
    requires code_value { is_part code ≡ true }
    requires full_bound { pair_form m.full.0 m.full.1 < 2 ^ (128 - code_bits code) }
    requires flip_bound { pair_form m.flip.0 m.flip.1 < 2 ^ (128 - code_bits code) }
    ensures full { pair_form result.full.0 result.full.1 ≡ pair_form m.full.0 m.full.1 * 2 ^ code_bits code + (2 ^ code_bits code - 1) }
    ensures flip { pair_form result.flip.0 result.flip.1 ≡ pair_form m.flip.0 m.flip.1 * 2 ^ code_bits code + formed (code_bits code) (code_sort code) 0 }
{
    let b = bits(code);
    Masks {
        full: shifted(m.full, b, ones(b)),
        flip: shifted(m.flip, b, part_flip(code)),
    }
}

// The masks of a table within the limits, part by part.
fn masks_of(table: Table) -> Masks
    requires { table_fits table ≡ true }
    ensures { Masked result (table_parts table) }
{
    let none = Masks {
        full: Pair(0, 0),
        flip: Pair(0, 0),
    };
    let one = with_part(none, table.first);
    let two = with_part(one, table.second);
    if table.third == 0 {
        return two;
    }
    let three = with_part(two, table.third);
    if table.fourth == 0 {
        return three;
    }
    with_part(three, table.fourth)
}

// Two whole words: every bit is the key's own, and none is flipped.
fn whole_words() -> Masks
    ensures { Masked result two_words }
{
    Masks {
        full: Pair(u64::MAX, u64::MAX),
        flip: Pair(0, 0),
    }
}

// The masks of a table. One that breaks the limits is read as two words. The function stays a
// call, so that keys of other kinds, which have no use for masks, do not pay for it (docs/PERFORMANCE.md).
#[inline(never)]
pub fn table_masks(table: Table) -> Masks
    ensures { Masked result (mixed_parts table) }
{
    if !table_fits(table) {
        return whole_words();
    }
    masks_of(table)
}

// The masks of a kind. The other kinds have no use for them.
pub fn kind_masks(kind: Kind) -> Masks
    ensures { Reads result kind }
{
    match kind.name() {
        KindName::Mixed => table_masks(kind.table),
        _ => whole_words(),
    }
}
