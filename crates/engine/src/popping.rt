// Pop: the tail of bucket 0 is given out; if that bucket is empty, after one constrain.
ghost use Rattle.std.specs.Prelude.{◌≡◌, ◌<◌, eqb, length, get_or};
ghost use Rattle.pool.specs.Lent.{links_at, links_in, world_in, SamePool};
ghost use Rattle.pool.specs.Fine.{Fine, Room};
ghost use Rattle.pool.specs.Core.{shifted, readied, popped, pop_tail};
ghost use Rattle.engine.specs.Answers.{pop_answered};
ghost use Rattle.engine.specs.Core.{pop_core};
ghost use Rattle.engine.specs.Room.{IsReady};

use crate::running::Engine;
use pool::{Entry, Pool, Refusal};

// What a pop gives: the crate's `(K, V)`, and how many entries its constrain moved.
#[derive(Clone, Copy, PartialEq, Eq, Debug)]
pub struct Popped {
    pub entry: Entry,
    pub moves: u32,
}

impl Engine {
    // One constrain, if bucket 0 is empty.
    fn ready(&mut self, keys: &[u64], next: &mut [u32], back: &mut [u32]) -> u32
        requires fine { Fine (links_at self.old.state next.old back.old) }
        requires room { Room self.old.state.head.kind (length next.old) keys.now }
        ensures { shifted self.new.state.head (links_at self.new.state next.new back.new) result ≡ readied (eqb (get_or self.old.state.last 0 0) 0) self.old.state.head (links_at self.old.state next.old back.old) keys.now }
    {
        if self.state.last[0] == 0 {
            return self.constrain(keys, next, back);
        }
        0
    }

    // The tail of bucket 0, which is not empty, is given out and its slot freed.
    fn take_tail(&mut self, pool: &mut Pool) -> Entry
        requires ready { IsReady self.old.state pool.old }
        requires tail { 0 < get_or self.old.state.last 0 0 }
        requires held { 0 < self.old.state.head.len }
        ensures same { SamePool pool.new pool.old }
        ensures gives { popped (world_in self.new.state pool.new) 0 result.key.first result.key.second result.value ≡ pop_tail (shifted self.old.state.head (links_in self.old.state pool.old) 0) pool.old.keys.now pool.old.values.now }
    {
        // Slices that are read while others change are lent on one by one, as the borrow checker asks.
        let keys = &mut *pool.keys;
        let next = &mut *pool.next;
        let back = &mut *pool.back;
        let slot = pool::unhook_tail(&mut self.state, next, back);
        let i = slot as usize;
        let key = pool::key_at(self.state.head.kind, keys, i);
        let value = pool.values[i];
        pool::release(&mut self.state, pool, slot);
        self.state.head.len -= 1;
        Entry { key, value }
    }

    pub fn pop(&mut self, pool: &mut Pool) -> Result<Popped, Refusal>
        requires { IsReady self.old.state pool.old }
        ensures same { SamePool pool.new pool.old }
        ensures gives { pop_answered result (world_in self.new.state pool.new) ≡ pop_core (world_in self.old.state pool.old) }
    {
        if self.state.head.len == 0 {
            return Err(Refusal::Empty);
        }
        // Slices that are read while others change are lent on one by one, as the borrow checker asks.
        let keys = &mut *pool.keys;
        let next = &mut *pool.next;
        let back = &mut *pool.back;
        let moves = self.ready(keys, next, back);
        if self.state.last[0] == 0 {
            return Err(Refusal::Empty);
        }
        let entry = self.take_tail(pool);
        Ok(Popped { entry, moves })
    }
}
