// A batch: the pool is examined once, then every record is answered in its own 40 bytes.
ghost use Rattle.std.specs.Prelude.{◌≡◌, ◌*◌, ◌/◌, ◌≤◌, length, IfOk};
ghost use Rattle.pool.specs.Codes.{told};
ghost use Rattle.pool.specs.Lent.{world_in, world_seen, SamePool};
ghost use Rattle.pool.specs.Sound.{Whole};
ghost use Rattle.batch.specs.Batch.{batch_code, batch_answered, batch};
ghost use Rattle.batch.specs.Core.{going, ran_from};

use crate::answers::write;
use crate::records::read;
use crate::serving::serve;
use engine::Engine;
use pool::{Answer, Pool, Refusal, State, View};

// How many records there are, if the batch as a whole is not refused.
fn test_batch(state: &State, view: View, records: &[u8], answers: &[u8]) -> Result<usize, Refusal>
    ensures code { told result ≡ batch_code (world_seen state.now view.entry) records.now answers.now }
    ensures count { IfOk result (λ n. n ≡ length records.now / 32) }
{
    pool::examine(state, view)?;
    if records.len() % 32 != 0 {
        return Err(Refusal::Ragged);
    }
    let n = records.len() / 32;
    if answers.len() / 40 < n {
        return Err(Refusal::NoRoom);
    }
    Ok(n)
}

// The records of an examined pool, one after the other, each answered in the part of the room that is
// lent for it.
fn serve_all(engine: &mut Engine, pool: &mut Pool, records: &[u8], answers: &mut [u8], n: usize)
    requires whole { Whole (world_in engine.old.state pool.old) }
    requires n_in_bounds { 32 * n ≤ length records.now }
    requires n_in_bounds_2 { 40 * n ≤ length answers.old }
    ensures same { SamePool pool.new pool.old }
    ensures runs { going (world_in engine.new.state pool.new) answers.new ≡ ran_from n 0 records.now (world_in engine.old.state pool.old) answers.old }
{
    for i in 0..n {
        let told = serve(engine, pool, read(records, 32 * i));
        write(&mut answers[40 * i..], told, engine.state.head.len);
    }
}

// Runs a batch of records and writes their answers. Tells how many were answered. Refused by the
// examination, for records that are not whole, or for too little room: then nothing is written.
pub fn run(
    state: State,
    pool: &mut Pool,
    records: &[u8],
    answers: &mut [u8],
) -> Answer<usize, Refusal>
    ensures same { SamePool pool.new pool.old }
    ensures gives { batch_answered result.told (world_in result.state pool.new) answers.new ≡ batch (world_in state pool.old) records.now answers.old }
{
    let told = test_batch(&state, pool.view(), records, answers);
    let Ok(n) = told else {
        return Answer { told, state };
    };
    let mut engine = Engine::of(state);
    serve_all(&mut engine, pool, records, answers, n);
    Answer {
        told,
        state: engine.state,
    }
}
