// Keys made from their words and back, compared and measured: a line for each test, with its outcome.
#![tactic(auto)]

mod floats;
mod mixed;
mod order;
mod rounds;

ghost use Rattle.std.specs.Prelude.{◌≡◌};

use keys::{Key, Kind, Pair, Plain, Reversed, Signed, Words};

fn line(rt: &impl Print, text: &str, ok: bool) {
    let outcome = if ok { "passed" } else { "failed" };
    let _ = println!(rt; "{text}: {outcome}");
}

// Is `word` the word of `z`, and does each come back from the other?
fn signed_at(z: i64, word: u64) -> bool {
    u64::from(Signed(z)) == word
        && rounds::number_round(z) == z
        && rounds::signed_round(word) == word
}

// Is `a` above `b` and not the other way round, as numbers and as words of kind 2?
fn signed_above(a: i64, b: i64) -> bool {
    let v = Words::from(u64::from(Signed(a)));
    let w = Words::from(u64::from(Signed(b)));
    order::above(Signed(a), Signed(b)) && order::above_by(Kind::bare(2), v, w)
}

// The same for keys of a type that holds its word, and as words of its kind.
fn word_above<K: Key + From<u64>>(kind: Kind, a: u64, b: u64) -> bool {
    order::above(K::from(a), K::from(b)) && order::above_by(kind, Words::from(a), Words::from(b))
}

fn plain_above(a: u64, b: u64) -> bool {
    word_above::<Plain>(Kind::bare(1), a, b)
}

fn reversed_above(a: u64, b: u64) -> bool {
    word_above::<Reversed>(Kind::bare(3), a, b)
}

fn pair_above(a: Words, b: Words) -> bool {
    order::above(Pair::from(a), Pair::from(b)) && order::above_by(Kind::bare(4), a, b)
}

fn words(first: u64, second: u64) -> Words
    ensures { (result.first ≡ first) × (result.second ≡ second) }
{
    Words { first, second }
}

fn signed_lines(rt: &impl Print) {
    line(
        rt,
        "signed -1: word 18446744073709551615, back -1",
        signed_at(-1, 18446744073709551615),
    );
    line(rt, "signed 0: word 0, back 0", signed_at(0, 0));
    line(
        rt,
        "signed -9223372036854775808: word 9223372036854775808, back -9223372036854775808",
        signed_at(-9223372036854775808, 9223372036854775808),
    );
    line(rt, "signed 0 above -1", signed_above(0, -1));
    line(
        rt,
        "signed -1 above -9223372036854775808",
        signed_above(-1, -9223372036854775808),
    );
    line(
        rt,
        "signed 0 above -9223372036854775808",
        signed_above(0, -9223372036854775808),
    )
}

fn other_rounds(rt: &impl Print) {
    let w = 18446744073709551615;
    line(
        rt,
        "plain 18446744073709551615: back the same",
        rounds::round::<Plain, u64>(w) == w,
    );
    line(
        rt,
        "reversed 18446744073709551615: back the same",
        rounds::round::<Reversed, u64>(w) == w,
    );
    line(
        rt,
        "pair (18446744073709551615,1): first back the same",
        rounds::round::<Pair, Words>(words(w, 1)).first == w,
    );
    line(
        rt,
        "pair (1,18446744073709551615): second back the same",
        rounds::round::<Pair, Words>(words(1, w)).second == w,
    )
}

fn other_lines(rt: &impl Print) {
    line(
        rt,
        "plain 18446744073709551615 above 0",
        plain_above(18446744073709551615, 0),
    );
    line(rt, "plain 2 above 1", plain_above(2, 1));
    line(
        rt,
        "reversed 0 above 18446744073709551615",
        reversed_above(0, 18446744073709551615),
    );
    line(rt, "reversed 1 above 2", reversed_above(1, 2));
    line(
        rt,
        "pair (1,0) above (0,18446744073709551615)",
        pair_above(words(1, 0), words(0, 18446744073709551615)),
    );
    line(
        rt,
        "pair (1,1) above (1,0)",
        pair_above(words(1, 1), words(1, 0)),
    )
}

// Document 01's example 7. The two are proved as well: `expect` asks for a proof that they hold.
fn distance_lines(rt: &impl Print) {
    let far = keys::distance(Kind::bare(4), words(1, 0), words(0, 18446744073709551615));
    let near = keys::distance(Kind::bare(4), words(1, 1), words(1, 0));
    check::expect(far == 65);
    check::expect(near == 1);
    line(
        rt,
        "pair (1,0) to (0,18446744073709551615): distance 65",
        far == 65,
    );
    line(rt, "pair (1,1) to (1,0): distance 1", near == 1)
}

// A line that cannot be written is passed over: the next one is tried, and the status is 0.
fn main(rt: HostRuntime) {
    signed_lines(&rt);
    other_rounds(&rt);
    other_lines(&rt);
    distance_lines(&rt);
    mixed::lines(&rt);
    floats::lines(&rt);
}
