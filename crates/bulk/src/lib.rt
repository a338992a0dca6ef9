// Bulk push: many entries at once, all or none.
//
// Both calls take any state and any slices, and have no `requires`. Every entry is tested before the
// first is pushed, so a refusal leaves the pool as it was. What a call gives is one equation, by
// `extended` of specs/Bulk.antt.
#![tactic(auto)]

mod entries;
mod extending;

pub use extending::{Stop, extend, extend_wide};
pub use pool::Entry;
