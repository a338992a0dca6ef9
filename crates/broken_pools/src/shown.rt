// Lines of output.
use crate::sample::Sample;
use keys::Kind;
use pool::Refusal;

pub fn line(rt: &impl Print, kind: Kind, text: &str, told: Result<(), Refusal>) {
    let _ = println!(rt; "kind {}, {text}: {}", kind.number, pool::code(told));
}

pub fn show(rt: &impl Print, text: &str, sample: Sample) {
    line(rt, sample.kind, text, sample.told())
}
