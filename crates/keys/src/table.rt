// The table of a mixed key, and its limits.
ghost use Rattle.std.specs.Prelude.{◌≡◌, cond, ◌&&◌, ◌||◌, ◌+◌, ◌<◌, eqb, leb};
ghost use Rattle.keys.specs.Table.{code_bits, is_part, table_fits, kind_fits};

use crate::kind::{Kind, KindName, Table};

// How many bits the part with this code has.
pub fn bits(code: u8) -> u64
    ensures { (result ≡ code_bits code) × (result < 256) }
{
    8 * (code as u64 / 8)
}

// Does this code stand for a part?
fn is_part(code: u8) -> bool
    ensures { result ≡ is_part code }
{
    code % 8 <= 2 && matches!(bits(code), 8 | 16 | 32 | 64)
}

// The entries after the second: the used ones stand first.
fn later_fit(third: u8, fourth: u8) -> bool
    ensures { result ≡ cond (eqb third 0) (eqb fourth 0) (is_part third && (eqb fourth 0 || is_part fourth)) }
{
    if fourth == 0 {
        return third == 0 || is_part(third);
    }
    is_part(third) && is_part(fourth)
}

// The bits of all entries. One that is not used has none.
fn total(table: Table) -> u64
    ensures { result ≡ code_bits table.first + code_bits table.second + code_bits table.third + code_bits table.fourth }
{
    bits(table.first) + bits(table.second) + bits(table.third) + bits(table.fourth)
}

// Two to four parts, the used entries first, of 128 bits together at most.
pub fn table_fits(table: Table) -> bool
    ensures { result ≡ table_fits table }
{
    is_part(table.first)
        && is_part(table.second)
        && later_fit(table.third, table.fourth)
        && total(table) <= 128
}

// Is there a kind with this number?
fn is_known(number: u32) -> bool
    ensures { result ≡ (leb 1 number && leb number 6) }
{
    1 <= number && number <= 6
}

// Do keys of this kind go by a table?
#[tactic(auto, unfolding(crate::specs::Names::name_of))]
fn has_table(kind: Kind) -> bool
    ensures { result ≡ eqb kind.number 5 }
{
    matches!(kind.name(), KindName::Mixed)
}

// A kind that a heap may have: 1 to 6, with a table in kind 5 and none in any other.
pub fn kind_fits(kind: Kind) -> bool
    ensures { result ≡ kind_fits kind }
{
    if has_table(kind) {
        return table_fits(kind.table);
    }
    is_known(kind.number) && kind.table == Table::of(0, 0, 0, 0)
}
