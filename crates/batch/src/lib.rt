// Batches: records of 32 bytes in, answers of 40 bytes out.
//
// `run` takes any state, pool, records and room, and has no `requires`. The pool is examined once; the
// records then run on references, with no copy of the state for each.
#![tactic(auto)]

mod answers;
mod bytes;
mod records;
mod runs;
mod serving;

pub use runs::run;
