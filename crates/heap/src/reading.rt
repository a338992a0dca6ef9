// The calls that only read: top, len, examine and list.
ghost use Rattle.std.specs.Prelude.{◌≡◌};
ghost use Rattle.pool.specs.Codes.{told};
ghost use Rattle.pool.specs.Lent.{world_seen};
ghost use Rattle.pool.specs.Examine.{examined};
ghost use Rattle.engine.specs.Outcome.{room_for};
ghost use Rattle.engine.specs.Answers.{top_answered, len_answered};
ghost use Rattle.heap.specs.Answers.{list_answered};
ghost use Rattle.heap.specs.Calls.{top_read, len_read, listed};

use keys::{Kind, Words};
use pool::{Refusal, State, View};

// The top, if there is one: no greater key will be taken.
pub fn top(state: State, view: View) -> Result<Option<Words>, Refusal>
    ensures { top_answered result (world_seen state view.entry) ≡ top_read (world_seen state view.entry) }
{
    examine(state, view)?;
    Ok(state.head.top())
}

// How many entries the heap holds.
pub fn len(state: State, view: View) -> Result<u32, Refusal>
    ensures { len_answered result (world_seen state view.entry) ≡ len_read (world_seen state view.entry) }
{
    examine(state, view)?;
    Ok(state.head.len)
}

// Is the pool fit and sound?
pub fn examine(state: State, view: View) -> Result<(), Refusal>
    ensures { told result ≡ examined (world_seen state view.entry) }
{
    pool::examine(&state, view)
}

// Do `len` entries find room in so many key words and values?
fn has_room(kind: Kind, len: usize, words: usize, values: usize) -> bool
    ensures { result ≡ room_for kind len words values }
{
    let places = if keys::is_wide(kind) {
        words / 2
    } else {
        words
    };
    len <= places && len <= values
}

// Writes every entry to two rooms: the waiting chain, then the buckets from 0 upwards, each front to
// back. Key words are laid as in the pool. Gives how many there are. Refused if either room is too short.
pub fn list(
    state: State,
    view: View,
    listkeys: &mut [u64],
    listvalues: &mut [u64],
) -> Result<u32, Refusal>
    ensures { list_answered result (world_seen state view.entry) listkeys.new listvalues.new ≡ listed (world_seen state view.entry) listkeys.old listvalues.old }
{
    examine(state, view)?;
    let head = state.head;
    if !has_room(
        head.kind,
        head.len as usize,
        listkeys.len(),
        listvalues.len(),
    ) {
        return Err(Refusal::NoRoom);
    }
    engine::list_all(&state, view, listkeys, listvalues);
    Ok(head.len)
}
