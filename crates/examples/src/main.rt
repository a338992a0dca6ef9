// Document 01's examples 1 to 12, and what document 02 asks of float keys, run by the public calls. A
// line for each.
#![tactic(auto)]

mod floats;
mod one_kind;
mod other_kinds;
mod slots;
mod small;
mod trial;

fn outcome(passed: bool) -> &'static str {
    if passed { "passed" } else { "failed" }
}

fn examples(rt: &impl Print) {
    let examples = [
        one_kind::nine_keys().is_some(),
        one_kind::ties().is_some(),
        one_kind::at_the_top().is_some(),
        small::one_slot().is_some(),
        other_kinds::signed().is_some(),
        other_kinds::reversed().is_some(),
        other_kinds::pairs(),
        one_kind::cleared().is_some(),
        one_kind::constrained().is_some(),
        small::no_slots().is_some(),
        one_kind::listed().is_some(),
        small::two_slots().is_some(),
    ];
    for (number, passed) in (1..13).zip(examples) {
        let _ = println!(rt; "example {number}: {}", outcome(passed));
    }
}

fn float_keys(rt: &impl Print) {
    let tests = [
        ("honest zeros", floats::honest_zeros()),
        ("ordered as numbers", floats::in_order().is_some()),
        ("infinities taken", floats::infinities().is_some()),
        ("a NaN refused", floats::no_nan()),
        (
            "a NaN refused where no slot is free",
            floats::no_nan_in_a_full_heap().is_some(),
        ),
        ("a second word refused", floats::no_second_word()),
        (
            "the pattern of a NaN taken in other kinds",
            floats::pattern_in_other_kinds(),
        ),
    ];
    for (text, passed) in tests {
        let _ = println!(rt; "float keys, {text}: {}", outcome(passed));
    }
}

// A line that cannot be written is passed over: the next one is tried, and the status is 0.
fn main(rt: HostRuntime) {
    examples(&rt);
    float_keys(&rt);
}
