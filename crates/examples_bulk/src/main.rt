// Bulk pushes at work, of numbers and of floats: one that is taken, and one for each code by which an
// entry is refused.
#![tactic(auto)]

mod door;
mod form;
mod sample;

use form::{Form, Ran, Three};
use sample::Sample;

// Float keys.
const MINUS_ZERO: u64 = 9223372036854775808;

const ONE: u64 = 4607182418800017408;

const TWO: u64 = 4611686018427387904;

const NAN: u64 = 9221120237041090560;

// What a call did to this pool.
fn show(rt: &impl Print, form: Form, text: &str, before: Sample, ran: Ran) {
    match ran.told {
        Ok(()) => {
            let _ = println!(rt; "{}{text}: taken", form.of_three());
        }
        Err(stop) => {
            let code = u8::from(stop.refusal);
            let pool = if ran.after == before {
                "unchanged"
            } else {
                "changed"
            };
            let _ = println!(rt;
                "{}{text}: code {code}, place {}, pool {pool}",
                form.name(),
                stop.place
            );
        }
    }
}

// Three entries of which one is refused, each time on the heap before.
fn refusals(rt: &impl Print, form: Form, cases: [(&str, Sample, [u64; 3], [u64; 3]); 3]) {
    for (text, before, keys0, keys1) in cases {
        let three = Three::of(keys0, keys1, [1, 2, 3]);
        show(rt, form, text, before, form.run(before, three));
    }
}

fn numbers(rt: &impl Print, form: Form) {
    let fresh = Sample::fresh(1, 10);
    let taken = form.run(fresh, Three::of([3, 9, 7], [0; 3], [30, 90, 70]));
    show(rt, form, "three entries", fresh, taken);
    let before = taken.after;
    let cases = [
        (
            "refused in the middle, above the top",
            before,
            [1, 11, 2],
            [0; 3],
        ),
        (
            "refused in the middle, no free slot",
            before,
            [1, 2, 3],
            [0, 0, 1],
        ),
        (
            "refused in the middle, a second key word",
            before,
            [1, 2, 11],
            [0, 1, 0],
        ),
    ];
    refusals(rt, form, cases)
}

// A NaN is the first refused only where no entry before it is. It is told before the want of a slot.
fn floats(rt: &impl Print, form: Form) {
    let fresh = Sample::fresh(6, ONE);
    let taken = form.run(fresh, Three::of([0, ONE, MINUS_ZERO], [0; 3], [1, 2, 3]));
    show(rt, form, "three floats", fresh, taken);
    let cases = [
        ("refused at the end, a NaN", fresh, [0, ONE, NAN], [0; 3]),
        (
            "refused in the middle, above the top, before a NaN",
            fresh,
            [0, TWO, NAN],
            [0; 3],
        ),
        (
            "refused in the middle, a NaN where no slot is free",
            taken.after,
            [0, NAN, TWO],
            [0, 0, 1],
        ),
    ];
    refusals(rt, form, cases)
}

// A line that cannot be written is passed over: the next one is tried, and the status is 0.
fn main(rt: HostRuntime) {
    numbers(&rt, Form::Slices);
    numbers(&rt, Form::List);
    floats(&rt, Form::Slices);
    floats(&rt, Form::List);
}
