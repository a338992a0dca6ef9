// List: the waiting chain, then the buckets from 0 upwards, each front to back.
ghost use Rattle.std.specs.Prelude.{◌≡◌, ◌≤◌, length};
ghost use Rattle.pool.specs.Fine.{Under, Room};
ghost use Rattle.engine.specs.Room.{Roomy};
ghost use Rattle.engine.specs.Core.{wrote, list_chain, list_entries};

use keys::Kind;
use pool::{State, View};

// One chain, from the link `start`, after `count` entries; no more than `len` in all.
fn list_chain(
    kind: Kind,
    len: usize,
    view: View,
    start: u32,
    listkeys: &mut [u64],
    listvalues: &mut [u64],
    count: usize,
) -> usize
    requires room { Room kind (length view.next.now) view.keys.now }
    requires values_len { length view.values.now ≡ length view.next.now }
    requires under { Under (length view.next.now) view.next.now }
    requires start_in_bounds { start ≤ length view.next.now }
    requires roomy { Roomy kind len listkeys.old listvalues.old }
    requires count_le_len { count ≤ len }
    ensures { wrote listkeys.new listvalues.new result ≡ list_chain len kind view.entry.keys.now view.entry.values.now view.entry.next.now start (wrote listkeys.old listvalues.old count) }
{
    let mut at = start;
    for place in count..len {
        if at == 0 {
            return place;
        }
        let slot = at as usize - 1;
        let key = pool::key_at(kind, view.keys, slot);
        pool::store_key(kind, listkeys, place, key);
        listvalues[place] = view.values[slot];
        at = view.next[slot];
    }
    len
}

// Writes every entry to the two rooms, and gives how many there were.
pub fn list_all(state: &State, view: View, listkeys: &mut [u64], listvalues: &mut [u64]) -> usize
    requires room { Room state.now.head.kind (length view.next.now) view.keys.now }
    requires values_len { length view.values.now ≡ length view.next.now }
    requires under { Under (length view.next.now) view.next.now }
    requires under_2 { Under (length view.next.now) state.now.first }
    requires roomy { Roomy state.now.head.kind state.now.head.len listkeys.old listvalues.old }
    ensures { wrote listkeys.new listvalues.new result ≡ list_entries state.now.head.len state.now.head.kind view.entry.keys.now view.entry.values.now state.now.first view.entry.next.now listkeys.old listvalues.old }
{
    let kind = state.head.kind;
    let len = state.head.len as usize;
    let waiting = state.first[pool::WAITING];
    let mut done = list_chain(kind, len, view, waiting, listkeys, listvalues, 0);
    for c in 0..pool::WAITING {
        done = list_chain(kind, len, view, state.first[c], listkeys, listvalues, done);
    }
    done
}
