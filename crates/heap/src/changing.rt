// The calls that change a heap: push, pop, constrain, clear and clear_to.
ghost use Rattle.std.specs.Prelude.{◌≡◌, false, Err};
ghost use Rattle.pool.specs.Codes.{told};
ghost use Rattle.pool.specs.World.{world_of};
ghost use Rattle.pool.specs.Lent.{SamePool, world_in, world_seen};
ghost use Rattle.pool.specs.Examine.{examined};
ghost use Rattle.engine.specs.Outcome.{answered, key_code};
ghost use Rattle.engine.specs.Core.{or_else};
ghost use Rattle.engine.specs.Answers.{pop_answered, moves_answered};
ghost use Rattle.heap.specs.Calls.{pushed, popped, constrained, cleared, cleared_to};

use engine::{Engine, Popped};
use keys::{Reader, Words};
use pool::{Answer, Pool, Refusal, State, View};

// A call that is refused says why, and hands back the state that it got.
fn refused<T>(state: State, refusal: Refusal) -> Answer<T, Refusal>
    ensures told { result.told ≡ Err refusal }
    ensures state { result.state ≡ state }
{
    Answer {
        told: Err(refusal),
        state,
    }
}

// The calls begin alike. What they do then differs by call and by answer, and a closure for it would
// need a contract as long as the calls are.

// Takes an entry. Refused if the key is malformed, a NaN or above the top, or if no slot is free.
pub fn push(state: State, pool: &mut Pool, key: Words, value: u64) -> Answer<(), Refusal>
    ensures same { SamePool pool.new pool.old }
    ensures gives { answered (told result.told) (world_in result.state pool.new) 0 false 0 0 0 0 ≡ pushed (world_in state pool.old) key.first key.second value }
{
    if let Err(refusal) = pool::examine(&state, pool.view()) {
        return refused(state, refusal);
    }
    let mut engine = Engine::of(state);
    let told = engine.push(pool, key, value);
    Answer {
        told,
        state: engine.state,
    }
}

// Gives out the greatest key, among equals the last pushed. Refused if the heap is empty.
pub fn pop(state: State, pool: &mut Pool) -> Answer<Popped, Refusal>
    ensures same { SamePool pool.new pool.old }
    ensures gives { pop_answered result.told (world_in result.state pool.new) ≡ popped (world_in state pool.old) }
{
    if let Err(refusal) = pool::examine(&state, pool.view()) {
        return refused(state, refusal);
    }
    let mut engine = Engine::of(state);
    let told = engine.pop(pool);
    Answer {
        told,
        state: engine.state,
    }
}

// Makes the greatest key the top, if there is an entry. Gives how many entries were moved. Keys and
// values are lent to be read only, so the four slices come one by one.
pub fn constrain(
    state: State,
    keys: &[u64],
    values: &[u64],
    next: &mut [u32],
    back: &mut [u32],
) -> Answer<u32, Refusal>
    ensures { moves_answered result.told (world_of result.state keys.now values.now next.new back.new) ≡ constrained (world_of state keys.now values.now next.old back.old) }
{
    let view = View {
        keys,
        values,
        next,
        back,
    };
    if let Err(refusal) = pool::examine(&state, view) {
        return refused(state, refusal);
    }
    let mut engine = Engine::of(state);
    let moves = engine.constrain(keys, next, back);
    Answer {
        told: Ok(moves),
        state: engine.state,
    }
}

// Drops every entry and the top. Moves none.
pub fn clear(state: State, pool: &mut Pool) -> Answer<u32, Refusal>
    ensures same { SamePool pool.new pool.old }
    ensures gives { moves_answered result.told (world_in result.state pool.new) ≡ cleared (world_in state pool.old) }
{
    if let Err(refusal) = pool::examine(&state, pool.view()) {
        return refused(state, refusal);
    }
    Answer {
        told: Ok(0),
        state: pool::lay_fresh(pool, state.head.kind, None),
    }
}

// Is the pool sound, and may this key be its top?
fn test_clear_to(state: &State, view: View, key: Words) -> Result<(), Refusal>
    ensures { told result ≡ or_else (examined (world_seen state.now view.entry)) (key_code state.now.head.kind key.first key.second) }
{
    pool::examine(state, view)?;
    engine::test_key(Reader::of(state.head.kind), key)
}

// Drops every entry and makes this key the top. Refused if the key is malformed or a NaN. Moves none.
pub fn clear_to(state: State, pool: &mut Pool, key: Words) -> Answer<u32, Refusal>
    ensures same { SamePool pool.new pool.old }
    ensures gives { moves_answered result.told (world_in result.state pool.new) ≡ cleared_to (world_in state pool.old) key.first key.second }
{
    if let Err(refusal) = test_clear_to(&state, pool.view(), key) {
        return refused(state, refusal);
    }
    Answer {
        told: Ok(0),
        state: pool::lay_fresh(pool, state.head.kind, Some(key)),
    }
}
