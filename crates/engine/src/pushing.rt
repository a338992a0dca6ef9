// Push: the first free slot goes to the tail of its bucket, or of the waiting chain.
ghost use Rattle.std.specs.Prelude.{◌≡◌, false};
ghost use Rattle.pool.specs.Codes.{told};
ghost use Rattle.pool.specs.Lent.{SamePool, world_in};
ghost use Rattle.pool.specs.Core.{place_in};
ghost use Rattle.engine.specs.Outcome.{answered, key_code};
ghost use Rattle.engine.specs.Core.{push_code, push_core};
ghost use Rattle.engine.specs.Room.{IsReady};

use crate::running::Engine;
use keys::{Reader, Words};
use pool::{Pool, Refusal};

// What a key by itself is told: code 5 for one that is not well-formed, then 9 for a NaN.
pub fn test_key(reader: Reader, key: Words) -> Result<(), Refusal>
    ensures { told result ≡ key_code reader.kind key.first key.second }
{
    if !reader.well_formed(key) {
        return Err(Refusal::Malformed);
    }
    if keys::is_nan(reader.kind, key) {
        return Err(Refusal::Nan);
    }
    Ok(())
}

impl Engine {
    // What a push is told, where `free` is the link to the first free slot.
    pub fn test_push(&self, free: u32, key: Words) -> Result<(), Refusal>
        ensures { told result ≡ push_code self.now.state.head free key.first key.second }
    {
        test_key(self.reader, key)?;
        let head = self.state.head;
        if head.topped && self.reader.above(key, head.top_words()) {
            return Err(Refusal::AboveTop);
        }
        if free == 0 {
            return Err(Refusal::Full);
        }
        Ok(())
    }

    // The chain where a key belongs.
    fn place(&self, key: Words) -> usize
        ensures { result ≡ place_in self.now.state.head key.first key.second }
    {
        let head = self.state.head;
        if head.topped {
            return self.reader.distance(key, head.top_words()) as usize;
        }
        pool::WAITING
    }

    pub fn push(&mut self, pool: &mut Pool, key: Words, value: u64) -> Result<(), Refusal>
        requires { IsReady self.old.state pool.old }
        ensures same { SamePool pool.new pool.old }
        ensures gives { answered (told result) (world_in self.new.state pool.new) 0 false 0 0 0 0 ≡ push_core (world_in self.old.state pool.old) key.first key.second value }
    {
        self.test_push(self.state.first[pool::FREE], key)?;
        let chain = self.place(key);
        // Lent on by itself, so that its links are known still after the call that only reads them.
        let next = &mut *pool.next;
        let slot = pool::take_free(&mut self.state, next);
        pool::append(&mut self.state, next, pool.back, chain, slot);
        pool::store_key(self.state.head.kind, pool.keys, slot as usize, key);
        pool.values[slot as usize] = value;
        self.state.head.len += 1;
        Ok(())
    }
}
