// What only mixed keys can break: "packed high part first into the two words, unused high bits zero";
// "a key with a bit set above its total is .. in a pool or top code 2"; "the pool has 2n key words".
use crate::layout::{Layout, planning, words};
use crate::sample::{Sample, unsound};
use crate::shown::{line, show};
use crate::tables::{by_table, zero_keys};
use keys::{Kind, REVERSED, SIGNED, Table, Words};
use pool::View;

// 2 ^ 56, the lowest bit above the planning desk's total, and all the bits below it.
const ABOVE: u64 = 1 << 56;

const BELOW: u64 = ABOVE - 1;

// The tables of the least total, 16 bits; of 64 and 72, the last in one word and the first in two; and
// of the greatest, 128.
fn two_bytes() -> Table {
    Table::of(8, 8, 0, 0)
}

fn filling_a_word() -> Table {
    Table::of(32, 16, 8, 8)
}

fn a_byte_more() -> Table {
    Table::of(64, 8, 0, 0)
}

fn four_parts() -> Table {
    Table::of(32, 32 + SIGNED, 32 + REVERSED, 32)
}

fn planned() -> Sample {
    Sample::with_top(Kind::mixed(planning()))
}

fn planned_waiting() -> Sample {
    Sample::waiting(Kind::mixed(planning()))
}

// 8 and 5 at the top, 7 and 9 below: 8 * 2 ^ 8 + 5 and 7 * 2 ^ 8 + 9. They differ from bit 11 down.
fn of_16_bits() -> Sample {
    let layout = Layout::two_words(words(0, 2053), words(0, 1801), 12, [4097, 0, 0]);
    Sample::laid_out(Kind::mixed(two_bytes()), layout)
}

// 8, 1, 5 and 3 at the top; 8, -1, 4 and 9 below, by the sign of the second part alone. They differ
// from its highest bit down, bit 95. The words are 8 * 2 ^ 32 + 1 and 5 * 2 ^ 32 + 3; below,
// 9 * 2 ^ 32 - 1 and 4 * 2 ^ 32 + 9.
fn of_128_bits() -> Sample {
    let top = words(34359738369, 21474836483);
    let lower = words(38654705663, 17179869193);
    let layout = Layout::two_words(top, lower, 96, [1, 1 << 32, 0]);
    Sample::laid_out(Kind::mixed(four_parts()), layout)
}

pub fn sound(rt: &impl Print) {
    show(rt, "sound, two parts of 8 bits", of_16_bits());
    show(rt, "sound, four parts of 32 bits", of_128_bits());
    let full = planned_waiting().with(|s| s.keys[5] = BELOW);
    show(rt, "sound, a key with all of 56 bits set", full);
    let mut full = zero_keys(four_parts());
    full.keys[4] = u64::MAX;
    full.keys[5] = u64::MAX;
    show(rt, "sound, a key with all of 128 bits set", full)
}

// The table says which key is above: the lower keys read by another one are above the top.
pub fn sorts(rt: &impl Print) {
    let straight = by_table(planned(), Table::of(32, 16, 8, 0));
    show(rt, "a reversed part read as unsigned", straight);
    let unsigned = by_table(of_128_bits(), Table::of(32, 32, 32 + REVERSED, 32));
    show(rt, "a signed part read as unsigned", unsigned)
}

// The parts stay as they were, and with them order and distance: nothing else is wrong.
pub fn above_the_total(rt: &impl Print) {
    let (held, waiting) = (planned(), planned_waiting());
    let wide = held.with(|s| s.keys[5] ^= ABOVE);
    show(rt, "a held key with bit 56", wide);
    let worded = held.with(|s| s.keys[4] = 1);
    show(rt, "a held key with a first word", worded);
    let wide = waiting.with(|s| s.keys[5] ^= ABOVE);
    show(rt, "a waiting key with bit 56", wide);
    let worded = waiting.with(|s| s.keys[4] = 1);
    show(rt, "a waiting key with a first word", worded);
    let wide = held.with(|s| s.state.head.top1 ^= ABOVE);
    show(rt, "a top with bit 56", wide);
    let worded = held.with(|s| s.state.head.top0 = 1);
    show(rt, "a top with a first word", worded)
}

// Where no bit is above the total, a first top word breaks only "with no top, .. both top words are 0".
pub fn key_words(rt: &impl Print) {
    let topped = zero_keys(four_parts()).with(|s| s.state.head.top0 = 1);
    show(rt, "four parts, no top, a first top word", topped);
    let sample = of_16_bits();
    let view = View {
        keys: &sample.keys[..5],
        ..sample.view()
    };
    let text = "two parts of 8 bits, a key word for each slot";
    line(rt, sample.kind, text, pool::examine(&sample.state, view))
}

// Two words with one bit alone, of 128.
fn one_bit(bit: usize) -> Words {
    let one = 1u64 << (bit % 64);
    if bit < 64 {
        words(0, one)
    } else {
        words(one, 0)
    }
}

// That bit in a key that waits,
fn in_a_key(table: Table, bit: usize) -> Sample {
    let key = one_bit(bit);
    let mut sample = zero_keys(table);
    sample.keys[4] = key.first;
    sample.keys[5] = key.second;
    sample
}

// and in the top of an empty pool.
fn in_the_top(table: Table, bit: usize) -> Sample {
    let top = one_bit(bit);
    let mut sample = zero_keys(table).emptied();
    sample.state.head.topped = true;
    sample.state.head.top0 = top.first;
    sample.state.head.top1 = top.second;
    sample
}

// The tables, and their totals.
fn tables() -> [(u8, Table); 5] {
    [
        (16, two_bytes()),
        (56, planning()),
        (64, filling_a_word()),
        (72, a_byte_more()),
        (128, four_parts()),
    ]
}

// How many of the 128 bits are refused, each by itself: all that are not below the total, and no other.
pub fn each_bit_of_a_key(rt: &impl Print) {
    for (total, table) in tables() {
        let refused = unsound(128, |bit| in_a_key(table, bit));
        let _ = println!(rt; "kind 5, of 128 bits in a key of {total}, refused: {refused}");
    }
}

// The same of the top; a parameter for what is turned over would need a clause longer than the loop.
pub fn each_bit_of_a_top(rt: &impl Print) {
    for (total, table) in tables() {
        let refused = unsound(128, |bit| in_the_top(table, bit));
        let _ = println!(rt; "kind 5, of 128 bits in a top of {total}, refused: {refused}");
    }
}
