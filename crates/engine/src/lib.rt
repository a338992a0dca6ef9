// The calls on a pool that was examined: what the public calls and batches run.
//
// Only the crates above call these functions. They ask for bounds (`IsReady`: lengths, every link at
// most n) and never that a pool is sound; what they do to a sound pool is what document 01 says, which
// the crate `heap` shows.
#![tactic(auto)]

mod constraining;
mod listing;
mod popping;
mod pushing;
mod running;

pub use listing::list_all;
pub use popping::Popped;
pub use pushing::test_key;
pub use running::Engine;
