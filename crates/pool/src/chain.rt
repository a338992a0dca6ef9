// What happens to one chain: a slot comes to its tail, leaves it, or goes back to the free chain.
ghost use Rattle.std.specs.Prelude.{◌≡◌, List, ℕ, ◌<◌, ◌≤◌, ◌^◌, length, get_or};
ghost use Rattle.pool.specs.World.{free_chain};
ghost use Rattle.pool.specs.Lent.{links_at, links_in, SamePool};
ghost use Rattle.pool.specs.Fine.{Fine, Room};
ghost use Rattle.pool.specs.Core.{appended, off, free_taken, tail_unhooked, cleared, released};

use crate::keywords::store_key;
use crate::lent::Pool;
use crate::state::{FREE, State};
use crate::summary::{mark, unmark};
use keys::Words;

// The slot becomes the last of the chain.
#[tactic(auto, unfolding(crate::specs::Core::appended))]
pub fn append(state: &mut State, next: &mut [u32], back: &mut [u32], chain: usize, slot: u32)
    requires fine { Fine (links_at state.old next.old back.old) }
    requires chain_bound { chain < 131 }
    requires slot_in_bounds { slot < length next.old }
    ensures head { state.new.head ≡ state.old.head }
    ensures links { links_at state.new next.new back.new ≡ appended (links_at state.old next.old back.old) chain slot }
{
    let link = slot + 1;
    let tail = state.last[chain];
    if tail == 0 {
        mark(&mut state.busy, chain);
        state.first[chain] = link;
    } else {
        next[tail as usize - 1] = link;
    }
    state.last[chain] = link;
    let at = slot as usize;
    back[at] = tail;
    next[at] = 0;
}

// The first free slot leaves the free chain. Back links are 0 there and stay.
#[tactic(auto, unfolding(crate::specs::Core::free_taken))]
pub fn take_free(state: &mut State, next: &[u32]) -> u32
    requires nonzero { 0 < get_or state.old.first free_chain 0 }
    requires free_chain_in_bounds { get_or state.old.first free_chain 0 ≤ length next.now }
    ensures head { state.new.head ≡ state.old.head }
    ensures links { (back : List ℕ) → off (links_at state.new next.now back) result ≡ free_taken (links_at state.old next.now back) }
{
    let slot = state.first[FREE] - 1;
    let rest = next[slot as usize];
    state.first[FREE] = rest;
    if rest == 0 {
        state.last[FREE] = 0;
    }
    slot
}

// The last slot of bucket 0 leaves it.
#[tactic(auto, unfolding(crate::specs::Core::tail_unhooked))]
pub fn unhook_tail(state: &mut State, next: &mut [u32], back: &[u32]) -> u32
    requires fine { Fine (links_at state.old next.old back.now) }
    requires nonzero { 0 < get_or state.old.last 0 0 }
    ensures head { state.new.head ≡ state.old.head }
    ensures links { off (links_at state.new next.new back.now) result ≡ tail_unhooked (links_at state.old next.old back.now) }
{
    let slot = state.last[0] - 1;
    let before = back[slot as usize];
    state.last[0] = before;
    if before == 0 {
        unmark(&mut state.busy, 0);
        state.first[0] = 0;
    } else {
        next[before as usize - 1] = 0;
    }
    slot
}

// A slot that is on no chain goes to the front of the free chain, its key and value become zero.
#[tactic(auto, unfolding(crate::specs::Core::released))]
pub fn release(state: &mut State, pool: &mut Pool, slot: u32)
    requires next_len_bound { length pool.old.next.now < 2 ^ 32 }
    requires back_len { length pool.old.back.now ≡ length pool.old.next.now }
    requires room { Room state.old.head.kind (length pool.old.next.now) pool.old.keys.now }
    requires values_len { length pool.old.values.now ≡ length pool.old.next.now }
    requires slot_in_bounds { slot < length pool.old.next.now }
    ensures same { SamePool pool.new pool.old }
    ensures head { state.new.head ≡ state.old.head }
    ensures slot { cleared (links_in state.new pool.new) pool.new.keys.now pool.new.values.now ≡ released state.old.head.kind (links_in state.old pool.old) pool.old.keys.now pool.old.values.now slot }
{
    let i = slot as usize;
    let link = slot + 1;
    store_key(state.head.kind, pool.keys, i, Words::from(0));
    pool.values[i] = 0;
    pool.back[i] = 0;
    let rest = state.first[FREE];
    pool.next[i] = rest;
    state.first[FREE] = link;
    if rest == 0 {
        state.last[FREE] = link;
    }
}
