// The examination at work: sound pools, and pools that break one clause of document 01 each, for
// every kind of key. A line for each, with its code: 0 sound, 1 not fit, 2 not sound.
#![tactic(auto)]

mod bits;
mod clauses;
mod floats;
mod layout;
mod mixed;
mod sample;
mod shown;
mod tables;

use keys::Kind;

fn every_kind(rt: &impl Print, kind: Kind) {
    clauses::sound(rt, kind);
    clauses::chains(rt, kind);
    clauses::links(rt, kind);
    bits::each_word(rt, kind);
    clauses::no_top(rt, kind);
    clauses::a_top(rt, kind);
    clauses::free(rt, kind);
    clauses::unfit(rt, kind)
}

// Every kind but 5 has no table.
fn bare_kind(rt: &impl Print, kind: Kind) {
    every_kind(rt, kind);
    tables::in_another_kind(rt, kind)
}

fn mixed_kind(rt: &impl Print) {
    let kind = Kind::mixed(layout::planning());
    every_kind(rt, kind);
    clauses::second_words(rt, kind);
    tables::number_of_parts(rt);
    tables::size_of_parts(rt);
    tables::each_code(rt);
    mixed::sound(rt);
    mixed::sorts(rt);
    mixed::above_the_total(rt);
    mixed::key_words(rt);
    mixed::each_bit_of_a_key(rt);
    mixed::each_bit_of_a_top(rt)
}

fn float_kind(rt: &impl Print) {
    bare_kind(rt, Kind::bare(6));
    floats::zeros(rt);
    floats::waiting_edges(rt);
    floats::bucket_edges(rt);
    floats::top_edges(rt);
    floats::each_bit_of_an_infinity(rt);
    floats::nowhere(rt)
}

// A line that cannot be written is passed over: the next one is tried, and the status is 0.
fn main(rt: HostRuntime) {
    for number in 1..5 {
        bare_kind(&rt, Kind::bare(number));
    }
    clauses::second_words(&rt, Kind::bare(4));
    mixed_kind(&rt);
    float_kind(&rt);
    clauses::too_many_slots(&rt);
}
