// Along a chain: the greatest key, and the spread of a chain.
ghost use Rattle.std.specs.Prelude.{◌≡◌, ◌<◌, ◌≤◌, length};
ghost use Rattle.keys.specs.Ordered.{ordered};
ghost use Rattle.pool.specs.Lent.{links_at};
ghost use Rattle.pool.specs.Fine.{Under, Fine, Room};
ghost use Rattle.pool.specs.Core.{greatest_of, drained, drain_chain};

use crate::against::SlotKey;
use crate::chain::append;
use crate::state::State;
use crate::summary::unmark;
use keys::{Reader, Words};

// The link of the slot with the greatest key, the first of them, on the chain from the link `start`.
pub fn greatest(reader: Reader, keys: &[u64], next: &[u32], start: u32) -> u32
    requires room { Room reader.kind (length next.now) keys.now }
    requires under { Under (length next.now) next.now }
    requires start_nonzero { (0 < start) × (start ≤ length next.now) }
    ensures { result ≡ greatest_of reader.kind keys.now next.now start }
{
    let s = start as usize - 1;
    let mut best = start;
    let mut best_key = SlotKey::of(reader.kind, keys, s);
    let mut at = next[s];
    for _ in 0..next.len() {
        if at == 0 {
            break;
        }
        let i = at as usize - 1;
        let key = SlotKey::of(reader.kind, keys, i);
        if key.above_slot(reader, best_key) {
            best = at;
            best_key = key;
        }
        at = next[i];
    }
    best
}

// Each slot of the chain, front to back, goes to the tail of the bucket of its key's distance to the
// top. Gives how many were moved.
pub fn spread(
    state: &mut State,
    reader: Reader,
    keys: &[u64],
    next: &mut [u32],
    back: &mut [u32],
    chain: usize,
    top: Words,
) -> u32
    requires fine { Fine (links_at state.old next.old back.old) }
    requires room { Room reader.kind (length next.old) keys.now }
    requires chain_bound { chain < 131 }
    ensures head { state.new.head ≡ state.old.head }
    ensures moved { drained (links_at state.new next.new back.new) result ≡ drain_chain reader.kind keys.now (ordered reader.kind top.first top.second) chain (links_at state.old next.old back.old) }
{
    let mut at = state.first[chain];
    unmark(&mut state.busy, chain);
    state.first[chain] = 0;
    state.last[chain] = 0;
    let mut moves: u32 = 0;
    for _ in 0..next.len() {
        if at == 0 {
            break;
        }
        let slot = at - 1;
        at = next[slot as usize];
        let key = SlotKey::of(reader.kind, keys, slot as usize);
        let bucket = key.distance(reader, top);
        append(state, next, back, bucket as usize, slot);
        moves += 1;
    }
    moves
}
