// The table of a kind: "a table that breaks these limits, or isn't zero in another kind, is code 1".
use crate::layout::planning;
use crate::sample::Sample;
use crate::shown::show;
use keys::{Kind, REVERSED, Table};
use pool::Refusal;

// The same pool by another table.
pub fn by_table(sample: Sample, table: Table) -> Sample {
    sample.with(|s| s.state.head.kind.table = table)
}

// "Isn't zero in another kind": one code by itself, and a whole table.
pub fn in_another_kind(rt: &impl Print, kind: Kind) {
    let tables = [
        ("a table with a first code", Table::of(8, 0, 0, 0)),
        ("a table with a second code", Table::of(0, 8, 0, 0)),
        ("a table with a third code", Table::of(0, 0, 8, 0)),
        ("a table with a fourth code", Table::of(0, 0, 0, 8)),
        ("the planning desk's table", planning()),
    ];
    for (text, table) in tables {
        show(rt, text, by_table(Sample::with_top(kind), table));
    }
}

// Three entries with key 0 wait: sound by every table within the limits.
pub fn zero_keys(table: Table) -> Sample {
    let mut sample = Sample::waiting(Kind::mixed(table));
    sample.keys = [0; 10];
    sample
}

fn show_each(rt: &impl Print, tables: &[(&str, Table)]) {
    for (text, table) in tables {
        show(rt, text, zero_keys(*table));
    }
}

// "Two to four components", those in use first.
pub fn number_of_parts(rt: &impl Print) {
    let priority = 8 + REVERSED;
    let tables = [
        ("a table of no part", Table::of(0, 0, 0, 0)),
        ("a table of one part", Table::of(32, 0, 0, 0)),
        ("a table with no first code", Table::of(0, 32, 16, priority)),
        (
            "a table with no second code",
            Table::of(32, 0, 16, priority),
        ),
        ("a table with no third code", Table::of(32, 16, 0, priority)),
    ];
    show_each(rt, &tables)
}

// "Each 8, 16, 32 or 64 bits, unsigned, signed or reversed"; "the total is at most 128 bits".
pub fn size_of_parts(rt: &impl Print) {
    let tables = [
        ("a part of 24 bits", Table::of(32, 24, 8, 0)),
        ("a part of sort 3", Table::of(32, 16, 8 + 3, 0)),
        ("three parts of 136 bits", Table::of(64, 64, 8, 0)),
        ("four parts of 136 bits", Table::of(64, 32, 32, 8)),
    ];
    show_each(rt, &tables)
}

// How many of the codes 1 to 255 make a table by which the examination tells this.
fn told_by<F: Fn(u8) -> Table>(due: Result<(), Refusal>, table_with: F) -> usize
    requires { F.IsAlwaysCallable table_with }
{
    (1..=255)
        .filter(|&code| zero_keys(table_with(code)).told() == due)
        .count()
}

// Every code in one place of a table.
fn codes<F: Fn(u8) -> Table>(rt: &impl Print, place: &str, table_with: F)
    requires { F.IsAlwaysCallable table_with }
{
    let sound = told_by(Ok(()), &table_with);
    let _ = println!(rt; "kind 5, of 255 {place} codes, sound: {sound}");
    let unfit = told_by(Err(Refusal::Unfit), &table_with);
    let _ = println!(rt; "kind 5, of 255 {place} codes, not fit: {unfit}");
}

// Four widths and three sorts make twelve codes of a part; the other 243 are none.
pub fn each_code(rt: &impl Print) {
    codes(rt, "first", |code| Table::of(code, 8, 0, 0));
    codes(rt, "second", |code| Table::of(8, code, 0, 0));
    codes(rt, "third", |code| Table::of(8, 8, code, 0));
    codes(rt, "fourth", |code| Table::of(8, 8, 8, code))
}
