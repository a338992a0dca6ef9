// A door to `bulk::extend`: three entries by value, which its caller needs no lent list for.
ghost use Rattle.std.specs.Prelude.{◌≡◌};
ghost use Rattle.pool.specs.Lent.{SamePool, world_in};
ghost use Rattle.bulk.specs.Answers.{bulk_answered};
ghost use Rattle.bulk.specs.Bulk.{extended};

use bulk::{Entry, Stop};
use pool::{Answer, Pool, State};

pub fn extend_three(state: State, pool: &mut Pool, entries: [Entry; 3]) -> Answer<(), Stop>
    ensures same { SamePool pool.new pool.old }
    ensures gives { bulk_answered result.told (world_in result.state pool.new) ≡ extended (world_in state pool.old) entries }
{
    bulk::extend(state, pool, &entries)
}
