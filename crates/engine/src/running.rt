// A heap at work: its state, and its kind's reader at hand. That the state and the lent slices fit each
// other (`IsReady`, `Fine`, `Room`) is asked in clauses, because it is said of two values.
ghost use Rattle.std.specs.Prelude.{◌≡◌};

use keys::Reader;
use pool::State;

#[derive(Drop)]
pub struct Engine {
    pub state: State,
    pub reader: Reader,
    pub ghost kinds: { reader.kind ≡ state.head.kind },
}

impl Engine {
    pub fn of(state: State) -> Engine
        ensures { result.state ≡ state }
    {
        Engine {
            state,
            reader: Reader::of(state.head.kind),
        }
    }
}
