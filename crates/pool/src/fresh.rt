// A fresh pool: every slot is free, in the order of their numbers.
ghost use Rattle.std.specs.Prelude.{◌≡◌, ◌<◌, ◌^◌, length, replicate};
ghost use Rattle.pool.specs.Core.{fresh_next, fresh_state};
ghost use Rattle.pool.specs.Lent.{world_in, SamePool};
ghost use Rattle.pool.specs.Fresh.{Pooled, fresh_with, state_with};

use crate::lent::Pool;
use crate::state::{FREE, Head, State};
use keys::{Kind, Words};

// Each slot is followed by the next one, and the last by none.
fn chain_up(next: &mut [u32])
    requires { length next.old < 2 ^ 32 }
    ensures { next.new ≡ fresh_next 0 (length next.old) }
{
    let n = next.len();
    for at in 0..n {
        next[at] = if at + 1 < n { at as u32 + 2 } else { 0 };
    }
}

// The state of a fresh heap with n slots: 131 equal chains, and then the free one set. The top's words may
// be any, with a top or without.
pub fn fresh_state(kind: Kind, n: u32, topped: bool, top0: u64, top1: u64) -> State
    ensures { result ≡ fresh_state kind n topped top0 top1 }
{
    let head = Head {
        kind,
        len: 0,
        topped,
        top0,
        top1,
    };
    let blank = State {
        head,
        first: [0; 131],
        last: [0; 131],
        busy: [0; 3],
    };
    let first = if n == 0 { 0 } else { 1 };
    blank.with_chain(FREE, first, n)
}

// The same with this top, or with none.
#[tactic(auto, unfolding(crate::specs::Fresh::state_with))]
fn state_with(kind: Kind, n: u32, top: Option<Words>) -> State
    ensures { result ≡ state_with kind n top }
{
    match top {
        Some(key) => fresh_state(kind, n, true, key.first, key.second),
        None => fresh_state(kind, n, false, 0, 0),
    }
}

// The pool becomes that of a fresh heap, with this top: "free chain 0, 1, 2 and so on, keys and values
// zero." Gives the state that goes with it.
#[tactic(auto, using(crate::proofs::CodeFresh::laid_is, crate::proofs::FreshPool::length_fresh))]
pub fn lay_fresh(pool: &mut Pool, kind: Kind, top: Option<Words>) -> State
    requires { length pool.old.next.now < 2 ^ 32 }
    ensures same { SamePool pool.new pool.old }
    ensures keys_after { pool.new.keys.now ≡ replicate (length pool.old.keys.now) 0 }
    ensures values_after { pool.new.values.now ≡ replicate (length pool.old.values.now) 0 }
    ensures next_after { pool.new.next.now ≡ fresh_next 0 (length pool.old.next.now) }
    ensures back_after { pool.new.back.now ≡ replicate (length pool.old.back.now) 0 }
    ensures state { result ≡ state_with kind (length pool.old.next.now) top }
    ensures fresh { Pooled kind pool.old.keys.now pool.old.values.now pool.old.next.now pool.old.back.now → world_in result pool.new ≡ fresh_with kind (length pool.old.next.now) top }
{
    pool.keys.fill(0);
    pool.values.fill(0);
    chain_up(pool.next);
    pool.back.fill(0);
    state_with(kind, pool.next.len() as u32, top)
}
