// The two fresh calls. They get no state, and the pool may hold anything.
ghost use Rattle.std.specs.Prelude.{◌≡◌, false, Err};
ghost use Rattle.pool.specs.World.{no_state};
ghost use Rattle.pool.specs.Codes.{told};
ghost use Rattle.pool.specs.Lent.{SamePool, world_in};
ghost use Rattle.engine.specs.Outcome.{answered};
ghost use Rattle.heap.specs.Calls.{made, made_at};

use keys::{Kind, Reader, Words};
use pool::{Answer, Pool, Refusal};

// "A refused fresh returns a state all zero (kind 0)."
fn refused(refusal: Refusal) -> Answer<(), Refusal>
    ensures told { result.told ≡ Err refusal }
    ensures state { result.state ≡ no_state }
{
    Answer {
        told: Err(refusal),
        state: pool::fresh_state(Kind::bare(0), 0, false, 0, 0),
    }
}

// An empty heap with no top.
pub fn new(kind: Kind, pool: &mut Pool) -> Answer<(), Refusal>
    ensures same { SamePool pool.new pool.old }
    ensures gives { answered (told result.told) (world_in result.state pool.new) 0 false 0 0 0 0 ≡ made kind pool.old.keys.now pool.old.values.now pool.old.next.now pool.old.back.now }
{
    if !pool::fits(kind, pool.view()) {
        return refused(Refusal::Unfit);
    }
    Answer {
        told: Ok(()),
        state: pool::lay_fresh(pool, kind, None),
    }
}

// An empty heap whose top is this key: no greater key will be taken. Refused if the key is malformed or
// a NaN.
pub fn new_at(kind: Kind, key: Words, pool: &mut Pool) -> Answer<(), Refusal>
    ensures same { SamePool pool.new pool.old }
    ensures gives { answered (told result.told) (world_in result.state pool.new) 0 false 0 0 0 0 ≡ made_at kind key.first key.second pool.old.keys.now pool.old.values.now pool.old.next.now pool.old.back.now }
{
    if !pool::fits(kind, pool.view()) {
        return refused(Refusal::Unfit);
    }
    if let Err(refusal) = engine::test_key(Reader::of(kind), key) {
        return refused(refusal);
    }
    Answer {
        told: Ok(()),
        state: pool::lay_fresh(pool, kind, Some(key)),
    }
}
