// Floats: made from their patterns and back, compared and measured, and told from NaNs.
use crate::{line, order, rounds};
use keys::{Float, Key, Kind, Words};

const ZERO: u64 = 0;

// The least number above zero.
const LEAST: u64 = 1;

const ONE: u64 = 4607182418800017408;

const INFINITY: u64 = 9218868437227405312;

// The patterns of the NaNs are those from INFINITY + 1 to this one.
const LAST_NAN: u64 = 9223372036854775807;

// The same with its sign bit turned over.
fn minus(word: u64) -> u64 {
    word ^ 9223372036854775808
}

fn comes_back(word: u64) -> bool {
    let other = minus(word);
    rounds::round::<Float, u64>(word) == word && rounds::round::<Float, u64>(other) == other
}

// Is `a` above `b` and not the other way round, and are they this far apart from either side? As keys of
// their type, and by the words of kind 6.
fn apart(a: u64, b: u64, distance: u32) -> bool {
    apart_by_type(Float(a), Float(b), distance)
        && apart_by_kind(Words::from(a), Words::from(b), distance)
}

fn apart_by_type(a: Float, b: Float, distance: u32) -> bool {
    order::above(a, b) && order::far(a, b, distance)
}

fn apart_by_kind(a: Words, b: Words, distance: u32) -> bool {
    let kind = Kind::bare(6);
    order::above_by(kind, a, b) && order::far_by(kind, a, b, distance)
}

// Of the same two with the other sign the order is the other, and the distance is the same.
fn apart_with_both_signs(a: u64, b: u64, distance: u32) -> bool {
    apart(a, b, distance) && apart(minus(b), minus(a), distance)
}

// No key is above itself, nor at a distance.
fn equal(word: u64) -> bool {
    let key = Float(word);
    !key.above(key) && key.distance(key) == 0
}

fn rounds_lines(rt: &impl Print) {
    line(rt, "float 0.0, -0.0: back the same", comes_back(ZERO));
    line(rt, "float 1.0, -1.0: back the same", comes_back(ONE));
    line(rt, "float inf, -inf: back the same", comes_back(INFINITY));
    line(
        rt,
        "float, every bit set: back the same",
        comes_back(LAST_NAN),
    );
    line(
        rt,
        "float -0.0, -1.0: not above itself, distance 0",
        equal(minus(ZERO)) && equal(minus(ONE)),
    )
}

fn signs_lines(rt: &impl Print) {
    line(
        rt,
        "float 0.0 above -0.0: distance 64",
        apart(ZERO, minus(ZERO), 64),
    );
    line(
        rt,
        "float 1.0 above -1.0: distance 64",
        apart(ONE, minus(ONE), 64),
    );
    line(
        rt,
        "float 5e-324 above -5e-324: distance 64",
        apart(LEAST, minus(LEAST), 64),
    );
    line(
        rt,
        "float inf above -inf: distance 64",
        apart(INFINITY, minus(INFINITY), 64),
    );
    line(
        rt,
        "float 5e-324 above -inf: distance 64",
        apart(LEAST, minus(INFINITY), 64),
    )
}

// A neighbour of the same exponent differs in the lowest bits, and at a power of two in 53: in the
// exponent's lowest bit and in all below it.
fn neighbours_lines(rt: &impl Print) {
    line(
        rt,
        "float 5e-324 above 0.0, -0.0 above -5e-324: distance 1",
        apart_with_both_signs(LEAST, ZERO, 1),
    );
    line(
        rt,
        "float 1.0000000000000002 above 1.0, and minus these: distance 1",
        apart_with_both_signs(ONE + 1, ONE, 1),
    );
    line(
        rt,
        "float 1.0 above 0.9999999999999999, and minus these: distance 53",
        apart_with_both_signs(ONE, ONE - 1, 53),
    );
    line(
        rt,
        "float inf above the greatest number, and minus these: distance 53",
        apart_with_both_signs(INFINITY, INFINITY - 1, 53),
    );
    line(
        rt,
        "float 1.0 above 0.0, -0.0 above -1.0: distance 62",
        apart_with_both_signs(ONE, ZERO, 62),
    );
    line(
        rt,
        "float inf above 1.0, and minus these: distance 63",
        apart_with_both_signs(INFINITY, ONE, 63),
    )
}

// A key and what is told of it: is it a NaN by its type and by kind 6, and may it stand in a pool? Its
// words are well-formed either way, and with a second word neither.
fn told(word: u64, nan: bool) -> bool {
    let kind = Kind::bare(6);
    let key = Words::from(word);
    Float(word).is_nan() == nan
        && keys::is_nan(kind, key) == nan
        && keys::well_formed(kind, key)
        && keys::is_proper(kind, key) != nan
        && refused(
            kind,
            Words {
                first: word,
                second: 1,
            },
        )
}

fn refused(kind: Kind, key: Words) -> bool {
    !keys::well_formed(kind, key) && !keys::is_proper(kind, key)
}

fn told_with_both_signs(word: u64, nan: bool) -> bool {
    told(word, nan) && told(minus(word), nan)
}

fn ordinary(number: u32, word: u64) -> bool {
    let kind = Kind::bare(number);
    let key = Words::from(word);
    keys::is_proper(kind, key) && !keys::is_nan(kind, key)
}

fn nan_lines(rt: &impl Print) {
    line(
        rt,
        "float 0.0, -0.0: no NaN",
        told_with_both_signs(ZERO, false),
    );
    line(
        rt,
        "float 1.0, -1.0: no NaN",
        told_with_both_signs(ONE, false),
    );
    line(
        rt,
        "float inf, -inf: no NaN",
        told_with_both_signs(INFINITY, false),
    );
    line(
        rt,
        "float, the pattern after inf, and after -inf: NaN",
        told_with_both_signs(INFINITY + 1, true),
    );
    line(
        rt,
        "float, every bit set, and every bit but the sign: NaN",
        told_with_both_signs(LAST_NAN, true),
    );
    line(
        rt,
        "plain, signed, reversed, pair with that pattern: no NaN",
        ordinary(1, LAST_NAN)
            && ordinary(2, LAST_NAN)
            && ordinary(3, LAST_NAN)
            && ordinary(4, LAST_NAN),
    )
}

pub fn lines(rt: &impl Print) {
    rounds_lines(rt);
    signs_lines(rt);
    neighbours_lines(rt);
    nan_lines(rt)
}
