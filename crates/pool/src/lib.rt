// The pool that a heap's caller lends: the state, the chains that its links make, and the examination.
//
// `examine` is public and takes any state and any slices: it has no `requires`. The other functions
// are the core's; only the crates above call them, after an examination. They ask for bounds (lengths,
// every link at most n) and for busy words that sum up the first links, and never that a pool is sound:
// along the links each loop ends by a budget.
#![tactic(auto)]

mod against;
mod along;
mod chain;
mod examination;
mod fresh;
mod keywords;
mod lent;
mod refusal;
mod standing;
mod state;
mod summary;
mod walking;

pub use along::{greatest, spread};
pub use chain::{append, release, take_free, unhook_tail};
pub use examination::{examine, fits};
pub use fresh::{fresh_state, lay_fresh};
pub use keywords::{key_at, store_key};
pub use lent::{Entry, Pool, View};
pub use refusal::{Refusal, UnknownCode, code};
pub use state::{Answer, CHAINS, FREE, Head, LIMIT, State, WAITING};
pub use summary::first_busy;
