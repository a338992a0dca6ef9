// What only floats can break: "a NaN in a pool or top is code 2", "minus zero just below plus zero".
use crate::layout::{Layout, MINUS_ONE};
use crate::sample::{Sample, unsound};
use crate::shown::show;
use keys::Kind;

const MINUS_ZERO: u64 = 1 << 63;

// The infinities, and their patterns plus one and with every lower bit set: the first and the last NaN.
const INFINITY: u64 = 0x7ff0_0000_0000_0000;

const FIRST_NAN: u64 = 0x7ff0_0000_0000_0001;

const LAST_NAN: u64 = 0x7fff_ffff_ffff_ffff;

const MINUS_INFINITY: u64 = 0xfff0_0000_0000_0000;

const FIRST_MINUS_NAN: u64 = 0xfff0_0000_0000_0001;

const LAST_MINUS_NAN: u64 = 0xffff_ffff_ffff_ffff;

const EDGES: [(&str, u64); 3] = [
    ("sound, the infinity", INFINITY),
    ("the first NaN", FIRST_NAN),
    ("the last NaN", LAST_NAN),
];

const MINUS_EDGES: [(&str, u64); 3] = [
    ("sound, minus the infinity", MINUS_INFINITY),
    ("minus the first NaN", FIRST_MINUS_NAN),
    ("minus the last NaN", LAST_MINUS_NAN),
];

// Only their order and their distance tell the zeros apart.
pub fn zeros(rt: &impl Print) {
    let kind = Kind::bare(6);
    let busy = [1, 1, 0];
    let below = Sample::laid_out(kind, Layout::one_word(0, MINUS_ZERO, 64, busy));
    show(rt, "sound, minus zero below plus zero", below);
    let mut equal = Sample::laid_out(kind, Layout::one_word(0, MINUS_ONE, 64, busy));
    equal.keys[1] = MINUS_ZERO;
    show(rt, "minus zero in the bucket of plus zero", equal);
    let above = Sample::laid_out(kind, Layout::one_word(MINUS_ZERO, 0, 64, busy));
    show(rt, "plus zero below minus zero", above)
}

// This key waits.
fn in_wait(key: u64) -> Sample {
    Sample::waiting(Kind::bare(6)).with(|s| s.keys[2] = key)
}

// This key stands in the bucket of minus the infinity's distance to -1.0. With the sign bit a NaN has
// the same distance, and its pattern lies below: nothing else is wrong.
fn in_a_bucket(key: u64) -> Sample {
    let busy = [MINUS_ZERO + 1, 0, 0];
    Sample::laid_out(Kind::bare(6), Layout::one_word(MINUS_ONE, key, 63, busy))
}

// This key is the top of an empty pool.
fn at_the_top(key: u64) -> Sample {
    let mut sample = Sample::waiting(Kind::bare(6)).emptied();
    sample.state.head.topped = true;
    sample.state.head.top0 = key;
    sample
}

// A line for each of these keys in that place.
fn show_each<F: Fn(u64) -> Sample>(
    rt: &impl Print,
    keys: [(&str, u64); 3],
    place: &str,
    sample_with: F,
)
    requires { F.IsAlwaysCallable sample_with }
{
    for (name, key) in keys {
        let code = pool::code(sample_with(key).told());
        let _ = println!(rt; "kind 6, {name} {place}: {code}");
    }
}

pub fn waiting_edges(rt: &impl Print) {
    show_each(rt, EDGES, "waiting", in_wait);
    show_each(rt, MINUS_EDGES, "waiting", in_wait)
}

pub fn bucket_edges(rt: &impl Print) {
    show_each(rt, MINUS_EDGES, "in a bucket", in_a_bucket)
}

pub fn top_edges(rt: &impl Print) {
    show_each(rt, EDGES, "as top", at_the_top);
    show_each(rt, MINUS_EDGES, "as top", at_the_top)
}

// The key with one of its 64 bits turned over.
fn turned(key: u64, bit: usize) -> u64 {
    key ^ (1 << (bit % 64))
}

// How many of the 64 bits are refused, each turned over by itself: the 52 below the exponent, and no
// other. Without a bit of its exponent it is a number, and with the other sign an infinity.
pub fn each_bit_of_an_infinity(rt: &impl Print) {
    let keys = [
        ("the infinity", INFINITY),
        ("minus the infinity", MINUS_INFINITY),
    ];
    for (name, key) in keys {
        let waiting = unsound(64, |bit| in_wait(turned(key, bit)));
        let _ = println!(rt;
            "kind 6, of 64 bits of {name} waiting, turned over, refused: {waiting}"
        );
        let top = unsound(64, |bit| at_the_top(turned(key, bit)));
        let _ = println!(rt; "kind 6, of 64 bits of {name} as top, turned over, refused: {top}");
    }
}

// Where there is no key the words are zero, and minus zero is not.
pub fn nowhere(rt: &impl Print) {
    let keys = [("a NaN", FIRST_NAN), ("minus zero", MINUS_ZERO)];
    let sample = Sample::with_top(Kind::bare(6));
    for (name, key) in keys {
        let code = pool::code(sample.with(|s| s.keys[4] = key).told());
        let _ = println!(rt; "kind 6, a free slot with {name}: {code}");
    }
    let sample = Sample::waiting(Kind::bare(6));
    for (name, key) in keys {
        let code = pool::code(sample.with(|s| s.state.head.top0 = key).told());
        let _ = println!(rt; "kind 6, no top, {name} as first top word: {code}");
    }
}
