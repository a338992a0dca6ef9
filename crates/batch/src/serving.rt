// One record served.
ghost use Rattle.std.specs.Prelude.{◌≡◌, None, Ok, length};
ghost use Rattle.pool.specs.Sound.{Whole};
ghost use Rattle.pool.specs.Lent.{world_in, SamePool};
ghost use Rattle.pool.specs.Fresh.{fresh_with};
ghost use Rattle.engine.specs.Core.{push_core, pop_core, clear_to_core};
ghost use Rattle.engine.specs.Room.{IsReady};
ghost use Rattle.batch.specs.Core.{replied, constrained_core, operated_core, served_core};

use crate::records::{Operation, Record, operation_of};
use engine::Engine;
use keys::Words;
use pool::{Entry, Pool, Refusal};

// What a record gives: how many entries were moved, a key, if one is given, with its value, and the
// length that was asked for. The fields are those of an answer, where what is not given is 0.
#[derive(Clone, Copy)]
pub struct Reply {
    pub moves: u32,
    pub key: Option<Words>,
    pub value: u64,
    pub count: u32,
}

impl Reply {
    // Moves alone.
    pub fn moved(moves: u32) -> Reply
        ensures { result ≡ record { moves = moves; key = None; value = 0; count = 0 } }
    {
        Reply {
            moves,
            key: None,
            value: 0,
            count: 0,
        }
    }
}

// The heap becomes fresh, with this top.
fn reset(engine: &mut Engine, pool: &mut Pool, top: Option<Words>)
    requires { IsReady engine.old.state pool.old }
    ensures same { SamePool pool.new pool.old }
    ensures fresh { world_in engine.new.state pool.new ≡ fresh_with engine.old.state.head.kind (length pool.old.next.now) top }
{
    engine.state = pool::lay_fresh(pool, engine.state.head.kind, top);
}

fn push(engine: &mut Engine, pool: &mut Pool, entry: Entry) -> Result<Reply, Refusal>
    requires { IsReady engine.old.state pool.old }
    ensures same { SamePool pool.new pool.old }
    ensures gives { replied result (world_in engine.new.state pool.new) ≡ push_core (world_in engine.old.state pool.old) entry.key.first entry.key.second entry.value }
{
    engine.push(pool, entry.key, entry.value)?;
    Ok(Reply::moved(0))
}

fn pop(engine: &mut Engine, pool: &mut Pool) -> Result<Reply, Refusal>
    requires { IsReady engine.old.state pool.old }
    ensures same { SamePool pool.new pool.old }
    ensures gives { replied result (world_in engine.new.state pool.new) ≡ pop_core (world_in engine.old.state pool.old) }
{
    let popped = engine.pop(pool)?;
    Ok(Reply {
        moves: popped.moves,
        key: Some(popped.entry.key),
        value: popped.entry.value,
        count: 0,
    })
}

fn constrain(engine: &mut Engine, pool: &mut Pool) -> Reply
    requires { IsReady engine.old.state pool.old }
    ensures same { SamePool pool.new pool.old }
    ensures gives { replied (Ok result) (world_in engine.new.state pool.new) ≡ constrained_core (world_in engine.old.state pool.old) }
{
    // The keys are read while the links change, so each is lent on by itself, as the borrow checker asks.
    let keys = &mut *pool.keys;
    let next = &mut *pool.next;
    let back = &mut *pool.back;
    Reply::moved(engine.constrain(keys, next, back))
}

fn clear_to(engine: &mut Engine, pool: &mut Pool, key: Words) -> Result<Reply, Refusal>
    requires { IsReady engine.old.state pool.old }
    ensures same { SamePool pool.new pool.old }
    ensures gives { replied result (world_in engine.new.state pool.new) ≡ clear_to_core (world_in engine.old.state pool.old) key.first key.second }
{
    engine::test_key(engine.reader, key)?;
    reset(engine, pool, Some(key));
    Ok(Reply::moved(0))
}

fn operate(engine: &mut Engine, pool: &mut Pool, operation: Operation) -> Result<Reply, Refusal>
    requires { Whole (world_in engine.old.state pool.old) }
    ensures same { SamePool pool.new pool.old }
    ensures gives { replied result (world_in engine.new.state pool.new) ≡ operated_core (world_in engine.old.state pool.old) operation }
{
    match operation {
        Operation::Push(entry) => push(engine, pool, entry),
        Operation::Pop => pop(engine, pool),
        Operation::Constrain => Ok(constrain(engine, pool)),
        Operation::Clear => {
            reset(engine, pool, None);
            Ok(Reply::moved(0))
        }
        Operation::ClearTo(key) => clear_to(engine, pool, key),
        Operation::Top => Ok(Reply {
            key: engine.state.head.top(),
            ..Reply::moved(0)
        }),
        Operation::Length => Ok(Reply {
            count: engine.state.head.len,
            ..Reply::moved(0)
        }),
    }
}

pub fn serve(engine: &mut Engine, pool: &mut Pool, r: Record) -> Result<Reply, Refusal>
    requires { Whole (world_in engine.old.state pool.old) }
    ensures same { SamePool pool.new pool.old }
    ensures gives { replied result (world_in engine.new.state pool.new) ≡ served_core (world_in engine.old.state pool.old) r }
{
    let asked = operation_of(engine.reader, r)?;
    operate(engine, pool, asked)
}
