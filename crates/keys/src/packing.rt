// A mixed key made from its parts, and its parts read back.
ghost use Rattle.std.specs.Prelude.{◌≡◌, true, is_some, IfSome, ◌+◌, ◌*◌, ◌-◌, ◌/◌, ◌%◌, ◌^◌, ◌≤◌, ◌<◌};
ghost use Rattle.keys.specs.Table.{code_bits, table_fits};
ghost use Rattle.keys.specs.Ordered.{pair_form};
ghost use Rattle.keys.specs.Packing.{part_fits, parts_fit, packed_of, parts_of};

use crate::kind::Table;
use crate::mask::{ones, shifted};
use crate::mixed_key::Mixed;
use crate::pair_key::Pair;
use crate::table::{bits, table_fits};

// The parts of a mixed key as the entries of its table stand, high part first: each a bit pattern of
// its part's bits, and 0 where the table has no part.
#[derive(Clone, Copy, PartialEq, Eq, Debug)]
pub struct Parts {
    pub first: u64,
    pub second: u64,
    pub third: u64,
    pub fourth: u64,
}

// Has the part no bit above those of its code? Where there is no part only 0 fits.
fn part_fits(code: u8, part: u64) -> bool
    ensures { result ≡ part_fits code part }
{
    let b = bits(code);
    63 < b || part < 1 << b
}

// Is the table within its limits, and does each part fit?
pub fn parts_fit(table: Table, parts: Parts) -> bool
    ensures { result ≡ parts_fit table parts }
{
    table_fits(table)
        && part_fits(table.first, parts.first)
        && part_fits(table.second, parts.second)
        && part_fits(table.third, parts.third)
        && part_fits(table.fourth, parts.fourth)
}

// The key with one more part, below the others. Where there is no part nothing is added.
fn with_lowest(key: Mixed, code: u8, part: u64) -> Mixed
    requires code_bound { code_bits code ≤ 64 }
    requires part_bound { part < 2 ^ code_bits code }
    requires key_bound { pair_form key.0 key.1 < 2 ^ (128 - code_bits code) }
    ensures { pair_form result.0 result.1 ≡ pair_form key.0 key.1 * 2 ^ code_bits code + part }
{
    let b = bits(code);
    if b == 0 {
        return key;
    }
    let Pair(high, low) = shifted(Pair(key.0, key.1), b, part);
    Mixed(high, low)
}

// The key of parts that fit, part by part.
fn join(table: Table, parts: Parts) -> Mixed
    requires { parts_fit table parts ≡ true }
    ensures { pair_form result.0 result.1 ≡ packed_of table parts }
{
    let one = Mixed(0, parts.first);
    let two = with_lowest(one, table.second, parts.second);
    let three = with_lowest(two, table.third, parts.third);
    with_lowest(three, table.fourth, parts.fourth)
}

// The key with these parts, if they fit.
pub fn pack(table: Table, parts: Parts) -> Option<Mixed>
    ensures fits { is_some result ≡ parts_fit table parts }
    ensures key { IfSome result (λ key. pair_form key.0 key.1 ≡ packed_of table parts) }
{
    if !parts_fit(table, parts) {
        return None;
    }
    Some(join(table, parts))
}

// The number of two words, moved down by so many bits.
fn shifted_down(number: Pair, bits: u64) -> Pair
    requires { (1 ≤ bits) × (bits ≤ 64) }
    ensures { pair_form result.0 result.1 ≡ pair_form number.0 number.1 / 2 ^ bits }
{
    let Pair(high, low) = number;
    if bits == 64 {
        return Pair(0, high);
    }
    Pair(high >> bits, (high << (64 - bits)) + (low >> bits))
}

// The part in the lowest bits of the key; 0 where there is no part.
fn lowest(key: Mixed, code: u8) -> u64
    requires { code_bits code ≤ 64 }
    ensures { result ≡ pair_form key.0 key.1 % 2 ^ code_bits code }
{
    let b = bits(code);
    if b == 0 {
        return 0;
    }
    key.1 & ones(b)
}

// The key without the part in its lowest bits.
fn without_lowest(key: Mixed, code: u8) -> Mixed
    requires { code_bits code ≤ 64 }
    ensures { pair_form result.0 result.1 ≡ pair_form key.0 key.1 / 2 ^ code_bits code }
{
    let b = bits(code);
    if b == 0 {
        return key;
    }
    let Pair(high, low) = shifted_down(Pair(key.0, key.1), b);
    Mixed(high, low)
}

// The parts of a key with a table within its limits, from the lowest up.
fn split(table: Table, key: Mixed) -> Parts
    requires { table_fits table ≡ true }
    ensures { result ≡ parts_of table (pair_form key.0 key.1) }
{
    let three = without_lowest(key, table.fourth);
    let two = without_lowest(three, table.third);
    let one = without_lowest(two, table.second);
    Parts {
        first: lowest(one, table.first),
        second: lowest(two, table.second),
        third: lowest(three, table.third),
        fourth: lowest(key, table.fourth),
    }
}

// The parts of a key; all 0 if the table breaks its limits.
pub fn unpack(table: Table, key: Mixed) -> Parts
    ensures { result ≡ parts_of table (pair_form key.0 key.1) }
{
    if !table_fits(table) {
        return Parts {
            first: 0,
            second: 0,
            third: 0,
            fourth: 0,
        };
    }
    split(table, key)
}
