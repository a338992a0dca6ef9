// A bulk push: every entry is tested, and then they are pushed.
ghost use Rattle.std.specs.Prelude.{◌≡◌, Ok, Err, MatchResult};
ghost use Rattle.pool.specs.Sound.{Typed, Whole};
ghost use Rattle.pool.specs.Lent.{SamePool, links_in, world_in};
ghost use Rattle.bulk.specs.Answers.{bulk_answered};
ghost use Rattle.bulk.specs.Bulk.{extended};
ghost use Rattle.bulk.specs.Core.{found_in, tested, push_all};
ghost use Rattle.bulk.specs.Wide.{zipped};

use crate::entries::{Entries, Wide};
use engine::Engine;
use pool::{Answer, Entry, Pool, Refusal, State};

// Why a bulk push is refused, and the place, from 0, of the entry that is. It is 0 too if the pool is
// refused, as `extended` has it, and so it is no `Option`.
#[derive(Clone, Copy, PartialEq, Eq, Debug)]
pub struct Stop {
    pub refusal: Refusal,
    pub place: usize,
}

// What is told of the entry at this place, or of the pool.
fn at_place(place: usize, outcome: Result<(), Refusal>) -> Result<(), Stop>
    ensures { MatchResult outcome (λ x. result ≡ Ok x) (λ r. result ≡ Err (record { refusal = r; place = place })) }
{
    outcome.map_err(|refusal| Stop { refusal, place })
}

// Tests the entries in order, where so many slots are free, up to the first that is refused.
fn test_each<E: Entries>(engine: &Engine, free: u32, entries: &E) -> Result<(), Stop>
    ensures { found_in result ≡ tested engine.now.state.head free 0 (E.entries entries.now) }
{
    let mut left = free;
    for place in 0..entries.count() {
        let entry = entries.entry(place);
        at_place(place, engine.test_push(left, entry.key))?;
        left -= 1;
    }
    Ok(())
}

// Pushes the entries in order. Past the test none is refused.
fn push_each<E: Entries>(engine: &mut Engine, pool: &mut Pool, entries: &E)
    requires { Whole (world_in engine.old.state pool.old) }
    ensures same { SamePool pool.new pool.old }
    ensures gives { world_in engine.new.state pool.new ≡ push_all (world_in engine.old.state pool.old) (E.entries entries.now) }
{
    for place in 0..entries.count() {
        let entry = entries.entry(place);
        let _ = engine.push(pool, entry.key, entry.value);
    }
}

// Takes all entries or none, after an examination of the pool. A refusal comes before the first push.
fn take_all<E: Entries>(engine: &mut Engine, pool: &mut Pool, entries: &E) -> Result<(), Stop>
    requires { Typed (links_in engine.old.state pool.old) }
    ensures same { SamePool pool.new pool.old }
    ensures gives { bulk_answered result (world_in engine.new.state pool.new) ≡ extended (world_in engine.old.state pool.old) (E.entries entries.now) }
{
    at_place(0, pool::examine(&engine.state, pool.view()))?;
    let free = pool.next.len() as u32 - engine.state.head.len;
    test_each(engine, free, entries)?;
    push_each(engine, pool, entries);
    Ok(())
}

// What both calls do, in whatever form the entries are lent.
fn extend_by<E: Entries>(state: State, pool: &mut Pool, entries: &E) -> Answer<(), Stop>
    ensures same { SamePool pool.new pool.old }
    ensures gives { bulk_answered result.told (world_in result.state pool.new) ≡ extended (world_in state pool.old) (E.entries entries.now) }
{
    let mut engine = Engine::of(state);
    let told = take_all(&mut engine, pool, entries);
    Answer {
        told,
        state: engine.state,
    }
}

// Takes all entries or none. If one is refused, the refusal and the place are those of the first that
// single pushes in that order would refuse.
pub fn extend(state: State, pool: &mut Pool, entries: &[Entry]) -> Answer<(), Stop>
    ensures same { SamePool pool.new pool.old }
    ensures gives { bulk_answered result.told (world_in result.state pool.new) ≡ extended (world_in state pool.old) entries.now }
{
    extend_by(state, pool, &entries)
}

// The same of entries that lie in three slices, for callers whose fields lie apart: entry i is `keys0[i]`, `keys1[i]`, `values[i]`, for i
// below the shortest of the three lengths.
pub fn extend_wide(
    state: State,
    pool: &mut Pool,
    keys0: &[u64],
    keys1: &[u64],
    values: &[u64],
) -> Answer<(), Stop>
    ensures same { SamePool pool.new pool.old }
    ensures gives { bulk_answered result.told (world_in result.state pool.new) ≡ extended (world_in state pool.old) (zipped keys0.now keys1.now values.now) }
{
    extend_by(
        state,
        pool,
        &Wide {
            keys0,
            keys1,
            values,
        },
    )
}
