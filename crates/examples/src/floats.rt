// Float keys with 16 slots: "f64 keys as their 64 bits, ordered as numbers, with minus zero just below
// plus zero".
use crate::slots::Slots;
use crate::trial::Trial;
use keys::{Kind, Words};
use pool::Refusal;

// The number of their kind.
const FLOAT: u32 = 6;

const ZERO: u64 = 0;

// The least number above zero.
const LEAST: u64 = 1;

const ONE: u64 = 0x3ff0_0000_0000_0000;

const ONE_AND_A_HALF: u64 = 0x3ff8_0000_0000_0000;

const INFINITY: u64 = 0x7ff0_0000_0000_0000;

// NaNs: every pattern above the infinity's is one.
const SIGNALLING: u64 = 0x7ff0_0000_0000_0001;

const QUIET: u64 = 0x7ff8_0000_0000_0000;

const GREATEST_NAN: u64 = 0x7fff_ffff_ffff_ffff;

// The same with its sign bit turned over.
fn minus(word: u64) -> u64 {
    word ^ (1 << 63)
}

// "At top minus zero a push of plus zero is code 6", and of -1.0 and minus zero the latter comes first.
fn below_minus_zero() -> Option<Trial<16>> {
    Trial::fresh_at(FLOAT, minus(ZERO))?
        .push_refused(Refusal::AboveTop, ZERO, 1)?
        .push(minus(ONE), 2)?
        .push(minus(ZERO), 3)?
        .top_is(minus(ZERO))?
        .pop(minus(ZERO), 3, 0)?
        .pop(minus(ONE), 2, 1)?
        .top_is(minus(ONE))
}

// Below plus zero, minus zero stands in another bucket, so that its pop moves it.
fn below_zero() -> Option<Trial<16>> {
    Trial::fresh_at(FLOAT, ZERO)?
        .push(minus(ZERO), 1)?
        .pop(minus(ZERO), 1, 1)?
        .top_is(minus(ZERO))
}

pub fn honest_zeros() -> bool {
    below_minus_zero().is_some() && below_zero().is_some()
}

// Below the infinity, the four from 1.5 to plus zero share a bucket, and so do the five from minus zero
// down. Among these, the least number and plus zero share one again, and so do -1.0 and -1.5.
fn ten_numbers() -> Option<Trial<16>> {
    let mut trial = Trial::fresh(FLOAT)?;
    let keys = [
        minus(ONE),
        ONE_AND_A_HALF,
        minus(ZERO),
        INFINITY,
        minus(LEAST),
        ZERO,
        minus(ONE_AND_A_HALF),
        ONE,
        minus(INFINITY),
        LEAST,
    ];
    for (value, key) in (1..).zip(keys) {
        trial = trial.push(key, value)?;
    }
    Some(trial)
}

pub fn in_order() -> Option<Trial<16>> {
    ten_numbers()?
        .pop(INFINITY, 4, 10)?
        .pop(ONE_AND_A_HALF, 2, 4)?
        .pop(ONE, 8, 1)?
        .pop(LEAST, 10, 2)?
        .pop(ZERO, 6, 1)?
        .pop(minus(ZERO), 3, 5)?
        .pop(minus(LEAST), 5, 1)?
        .pop(minus(ONE), 1, 2)?
        .pop(minus(ONE_AND_A_HALF), 7, 1)?
        .pop(minus(INFINITY), 9, 1)?
        .pop_nothing()
}

// They are the greatest and the least number, and either may be the top.
pub fn infinities() -> Option<Trial<16>> {
    Trial::fresh_at(FLOAT, INFINITY)?
        .push(minus(INFINITY), 1)?
        .push(INFINITY, 2)?
        .pop(INFINITY, 2, 0)?
        .pop(minus(INFINITY), 1, 1)?
        .clear_to(minus(INFINITY))?
        .push_refused(Refusal::AboveTop, minus(ONE), 3)?
        .push(minus(INFINITY), 4)?
        .pop(minus(INFINITY), 4, 0)?
        .clear_to(INFINITY)?
        .top_is(INFINITY)
}

// A fresh heap at this key is refused. The state is that of no heap, and the pool is not written.
fn fresh_refused(refusal: Refusal, key: Words) -> bool {
    let before = Slots::<1>::filled_with(7);
    let mut after = before;
    let answer = heap::new_at(Kind::bare(FLOAT), key, &mut after.lend());
    answer.told == Err(refusal) && answer.state.head.kind.number == 0 && after == before
}

// Every call with a key refuses this one. The heap keeps its length, its top, which is 1.0, and its two
// entries.
fn held(refusal: Refusal, key: Words) -> Option<Trial<16>> {
    Trial::fresh_at(FLOAT, ONE)?
        .push(minus(ONE), 1)?
        .push(ONE, 2)?
        .push_gives(Err(refusal), key, 3)?
        .clear_to_gives(Err(refusal), key)?
        .length_is(2)?
        .top_is(ONE)?
        .pop(ONE, 2, 0)?
        .pop(minus(ONE), 1, 1)?
        .pop_nothing()
}

fn refused(refusal: Refusal, key: Words) -> bool {
    held(refusal, key).is_some() && fresh_refused(refusal, key)
}

// "A NaN key is new code 9, tested after 5 and before 6": it is neither above the top nor below it.
pub fn no_nan() -> bool {
    [SIGNALLING, QUIET, GREATEST_NAN].iter().all(|&nan| {
        refused(Refusal::Nan, Words::from(nan)) && refused(Refusal::Nan, Words::from(minus(nan)))
    })
}

// There a number is code 7.
pub fn no_nan_in_a_full_heap() -> Option<Trial<16>> {
    let mut trial = Trial::fresh(FLOAT)?;
    for at in 0..16 {
        trial = trial.push(ONE, at % 4 + 1)?;
    }
    trial
        .push_refused(Refusal::Nan, QUIET, 5)?
        .push_refused(Refusal::Nan, minus(QUIET), 6)?
        .push_refused(Refusal::Full, ONE, 7)?
        .length_is(16)?
        .pop(ONE, 4, 16)
}

// "The second word is treated as in kinds 1 to 3", and that of a NaN too.
pub fn no_second_word() -> bool {
    [ZERO, minus(ZERO), INFINITY, QUIET, minus(QUIET)]
        .iter()
        .all(|&first| refused(Refusal::Malformed, Words { first, second: 1 }))
}

// Only kind 6 has NaNs.
fn pattern_taken(kind: u32) -> Option<Trial<16>> {
    Trial::fresh_at(kind, QUIET)?
        .push(QUIET, 1)?
        .pop(QUIET, 1, 0)?
        .clear_to(QUIET)?
        .top_is(QUIET)
}

pub fn pattern_in_other_kinds() -> bool {
    (1..4).all(|kind| pattern_taken(kind).is_some())
}
