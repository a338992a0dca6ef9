// A heap of timed messages over a pool that the caller lends: the public calls.
//
// Every call but the two fresh ones examines the whole pool before it acts. Any state, pool, key and
// room may be handed in, and no call has a `requires`. A call that is refused says why, changes no byte
// and hands back the state that it got. What each call gives is one equation, by the definition of its
// name in specs/Calls.antt.
//
// The pool is four slices for n slots, n at most 4,096: n key words (2n in kinds 4 and 5), n values, n next
// links and n back links. The state goes in by value and comes back by value.
#![tactic(auto)]

mod changing;
mod fresh;
mod reading;

pub use changing::{clear, clear_to, constrain, pop, push};
pub use engine::Popped;
pub use fresh::{new, new_at};
pub use reading::{examine, len, list, top};
