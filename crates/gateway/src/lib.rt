// The depot gateway's job: one batch of records from standard input, its answers to standard output.
//
// It serves kind 3 (release times, the earliest first) with 256 slots, from a fresh heap. If the batch
// as a whole is refused it writes one byte, the code; input of more than 16,384 bytes is code 4. On a
// read error it serves what it got: `io::read_full` tells how much that is, which std's `read_exact`
// does not.
//
// `any_pool` is the same for any kind and any number of slots, for the programs that are compared with
// the crate.
#![tactic(auto)]

mod any_pool;

pub use any_pool::{serve_slots, small};
use keys::Kind;
use pool::{Pool, Refusal};

// One byte with a code, or with that of a refusal.
pub fn tell(code: impl Into<u8>) {
    io::write_all(1, &[code.into()]);
}

// The first so many answers.
fn tell_answers(count: usize, answers: &[u8]) {
    if count <= answers.len() / 40 {
        io::write_all(1, &answers[..40 * count]);
    }
}

// Runs the records on a fresh heap of this kind, and writes the answers.
pub fn serve(kind: Kind, pool: &mut Pool, records: &[u8], answers: &mut [u8]) {
    let made = heap::new(kind, pool);
    match batch::run(made.state, pool, records, answers).told {
        Ok(count) => tell_answers(count, answers),
        Err(refusal) => tell(refusal),
    }
}

// The heap, and room for the answers of 512 records, the most that 16,384 bytes can hold.
fn serve_input(records: &[u8]) {
    let mut keys = [0; 256];
    let mut values = [0; 256];
    let mut next = [0; 256];
    let mut back = [0; 256];
    let mut answers = [0; 20480];
    let mut pool = Pool {
        keys: &mut keys,
        values: &mut values,
        next: &mut next,
        back: &mut back,
    };
    serve(Kind::bare(3), &mut pool, records, &mut answers);
}

// What was read; one byte more than 16,384 shows that there is too much.
fn serve_first(input: &[u8]) {
    if 16384 < input.len() {
        tell(Refusal::NoRoom);
        return;
    }
    serve_input(input);
}

// Reads until the input ends, in pieces of any size, and serves it.
pub fn serve_standard_input() {
    let mut input = [0; 16385];
    let got = io::read_full(0, &mut input);
    serve_first(&input[..got]);
}
