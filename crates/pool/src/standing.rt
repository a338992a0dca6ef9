// The tests of the walks: on a chain of entries, and on the free chain.
ghost use Rattle.std.specs.Prelude.{◌≡◌, ◌≢◌, length};
ghost use Rattle.pool.specs.Fine.{Room};
ghost use Rattle.pool.specs.Examine.{stands_at, empty_at};

use crate::against::SlotKey;
use crate::keywords::key_at;
use crate::state::{Head, WAITING};
use crate::walking::Standing;
use keys::{Kind, Reader};

// The slots of a chain of entries: a back link leads to the slot before, the key is one of the kind and
// at most the top, and the chain is that of its key's distance (the waiting chain if there is no top).
#[derive(Clone, Copy)]
pub struct Entries<'a> {
    pub head: Head,
    pub reader: Reader,
    pub keys: &'a [u64],
    pub back: &'a [u32],
    pub chain: usize,
    pub ghost kinds: { reader.kind ≡ head.kind },
    pub ghost room: { Room head.kind (length back.now) keys.now },
}

// The same in every kind but 5 and 6: whatever stands in a slot is a key there. They have a walk of their
// own: of a single loop with every kind's tests the compiler makes none that is short.
#[derive(Clone, Copy)]
pub struct BareEntries<'a> {
    pub head: Head,
    pub keys: &'a [u64],
    pub back: &'a [u32],
    pub chain: usize,
    pub ghost unmixed: { head.kind.number ≢ 5 },
    pub ghost no_float: { head.kind.number ≢ 6 },
    pub ghost room: { Room head.kind (length back.now) keys.now },
}

// The slots of the free chain: back link, key and value are 0.
#[derive(Clone, Copy)]
pub struct FreeSlots<'a> {
    pub kind: Kind,
    pub keys: &'a [u64],
    pub values: &'a [u64],
    pub back: &'a [u32],
    pub ghost room: { Room kind (length back.now) keys.now },
    pub ghost sized: { length values.now ≡ length back.now },
}

impl Standing for Entries<'_> {
    ghost slots = { λ c. length c.back.now };

    ghost stands = { λ c before slot. stands_at c.head c.keys.now c.back.now c.chain before slot };

    fn may_stand(&self, before: u32, slot: usize) -> bool {
        let key = key_at(self.head.kind, self.keys, slot);
        if self.back[slot] != before || !self.reader.is_proper(key) {
            return false;
        }
        if !self.head.topped {
            return self.chain == WAITING;
        }
        let top = self.head.top_words();
        !self.reader.above(key, top) && self.chain == self.reader.distance(key, top) as usize
    }
}

impl Standing for BareEntries<'_> {
    ghost slots = { λ c. length c.back.now };

    ghost stands = { λ c before slot. stands_at c.head c.keys.now c.back.now c.chain before slot };

    fn may_stand(&self, before: u32, slot: usize) -> bool {
        if self.back[slot] != before {
            return false;
        }
        if !self.head.topped {
            return self.chain == WAITING;
        }
        let key = SlotKey::of(self.head.kind, self.keys, slot);
        let top = self.head.top_words();
        !key.bare_above(top) && self.chain == key.bare_distance(top) as usize
    }
}

impl Standing for FreeSlots<'_> {
    ghost slots = { λ c. length c.back.now };

    ghost stands = { λ c before slot. empty_at c.kind c.keys.now c.values.now c.back.now slot };

    // Word by word, so that the proof has a fact for each way out.
    fn may_stand(&self, _before: u32, slot: usize) -> bool {
        let key = key_at(self.kind, self.keys, slot);
        if self.back[slot] != 0 || key.first != 0 || key.second != 0 {
            return false;
        }
        self.values[slot] == 0
    }
}
