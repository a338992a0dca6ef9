// Constrain: the first busy chain is drained, and the top becomes its greatest key.
ghost use Rattle.std.specs.Prelude.{◌≡◌, false, ◌<◌, length, get_or, unwrap_or, IfSome};
ghost use Rattle.pool.specs.Marks.{summary};
ghost use Rattle.pool.specs.Lent.{links_at};
ghost use Rattle.pool.specs.Fine.{Fine, Room};
ghost use Rattle.pool.specs.Core.{shifted, drain_unless, constrain_core};
ghost use Rattle.engine.specs.Core.{to_drain};

use crate::running::Engine;
use pool::State;

// The chain to drain, if there is one: with a top the first busy bucket, unless it is bucket 0, and
// without one the waiting chain.
fn to_drain(state: &State) -> Option<usize>
    requires { state.now.busy ≡ summary state.now.first }
    ensures chain { unwrap_or result 0 ≡ to_drain state.now.head.topped state.now.first }
    ensures never_bucket_0 { IfSome result (λ c. 0 < c) }
{
    if state.head.topped {
        return match pool::first_busy(&state.busy) {
            Some(bucket) if bucket > 0 && bucket < pool::WAITING => Some(bucket),
            // Bucket 0 is not drained, and a bit past the buckets stands for none.
            Some(_) => None,
            // No bucket is busy.
            None => None,
        };
    }
    if state.first[pool::WAITING] == 0 {
        return None;
    }
    Some(pool::WAITING)
}

impl Engine {
    // "The top becomes the chain's greatest key, then each entry, front to back, goes to the tail of its
    // new bucket." The chain is not empty. Gives how many entries were moved.
    fn drain(&mut self, keys: &[u64], next: &mut [u32], back: &mut [u32], chain: usize) -> u32
        requires fine { Fine (links_at self.old.state next.old back.old) }
        requires room { Room self.old.state.head.kind (length next.old) keys.now }
        requires chain_bound { chain < 131 }
        requires nonzero { 0 < get_or self.old.state.first chain 0 }
        ensures { shifted self.new.state.head (links_at self.new.state next.new back.new) result ≡ drain_unless false self.old.state.head (links_at self.old.state next.old back.old) keys.now chain }
    {
        let reader = self.reader;
        let slot = pool::greatest(reader, keys, next, self.state.first[chain]) as usize - 1;
        let top = pool::key_at(reader.kind, keys, slot);
        let moves = pool::spread(&mut self.state, reader, keys, next, back, chain, top);
        self.state.head.topped = true;
        self.state.head.top0 = top.first;
        self.state.head.top1 = top.second;
        moves
    }

    // Makes the greatest key the top, if there is an entry. Gives how many entries were moved.
    pub fn constrain(&mut self, keys: &[u64], next: &mut [u32], back: &mut [u32]) -> u32
        requires fine { Fine (links_at self.old.state next.old back.old) }
        requires room { Room self.old.state.head.kind (length next.old) keys.now }
        ensures { shifted self.new.state.head (links_at self.new.state next.new back.new) result ≡ constrain_core self.old.state.head (links_at self.old.state next.old back.old) keys.now }
    {
        match to_drain(&self.state) {
            Some(chain) => self.drain(keys, next, back, chain),
            None => 0,
        }
    }
}
