// The examination: is a pool fit and sound? One pass along every chain, with no marks and no memory
// of its own: what is left of a budget of n slots is carried from chain to chain.
ghost use Rattle.std.specs.Prelude.{◌≡◌, cond, ◌≤◌, ◌<◌, eqb, length, get_or};
ghost use Rattle.pool.specs.Lent.{links_at, world_seen};
ghost use Rattle.pool.specs.Codes.{told};
ghost use Rattle.pool.specs.Sound.{Fit};
ghost use Rattle.pool.specs.Marks.{same_words};
ghost use Rattle.pool.specs.Walk.{left_over};
ghost use Rattle.pool.specs.World.{free_chain};
ghost use Rattle.pool.specs.Examine.{fits as fitsTest, headed, ok_busy, ok_free, verify, scanned, finish, examined};

use crate::lent::View;
use crate::refusal::Refusal;
use crate::standing::{BareEntries, Entries, FreeSlots};
use crate::state::{FREE, Head, LIMIT, State};
use crate::summary::mark;
use crate::walking::walk;
use keys::{Kind, KindName, Reader, Words};

// A kind that fits, slices that fit each other, no more slots than the limit.
pub fn fits(kind: Kind, view: View) -> bool
    ensures { result ≡ fitsTest kind (length view.entry.keys.now) (length view.entry.values.now) (length view.entry.next.now) (length view.entry.back.now) }
{
    let n = view.next.len();
    if !keys::kind_fits(kind) || LIMIT < n || view.values.len() != n || view.back.len() != n {
        return false;
    }
    let words = if keys::is_wide(kind) { 2 * n } else { n };
    view.keys.len() == words
}

// The top is a key of the kind, and top words that are not in use are 0.
fn top_is_plain(head: Head) -> bool
    ensures { result ≡ headed head }
{
    let top = head.top_words();
    keys::is_proper(head.kind, top) && (head.topped || top == Words::from(0))
}

// Are these the busy words of the state?
#[tactic(auto, using(crate::proofs::CodeExam::same_three), unfolding(crate::specs::Marks::same_words))]
fn has_busy(state: &State, words: [u64; 3]) -> bool
    ensures { result ≡ same_words words state.now.busy }
{
    words == state.busy
}

// A state with a pool that fits it, as `fits` tests, and the reader of its kind.
#[derive(Clone, Copy)]
struct FitPool<'a> {
    state: &'a State,
    view: View<'a>,
    reader: Reader,
    ghost fit: { Fit (world_seen state.now view) },
    ghost kinds: { reader.kind ≡ state.now.head.kind },
}

impl FitPool<'_> {
    // Walks one chain of entries, along at most `budget` slots.
    fn walk_entries(&self, chain: usize, budget: usize) -> Option<usize>
        requires chain_bound { chain < 131 }
        requires budget_in_bounds { budget ≤ length self.now.view.next.now }
        ensures { left_over result ≡ verify (ok_busy self.now.state.now.head (links_at self.now.state.now self.now.view.next.now self.now.view.back.now) self.now.view.keys.now chain) self.now.view.next.now (get_or self.now.state.now.last chain 0) budget 0 (get_or self.now.state.now.first chain 0) }
    {
        let (start, end) = (self.state.first[chain], self.state.last[chain]);
        let (head, keys, back) = (self.state.head, self.view.keys, self.view.back);
        match head.kind.name() {
            KindName::Mixed | KindName::Float => {
                let entries = Entries {
                    head,
                    reader: self.reader,
                    keys,
                    back,
                    chain,
                };
                walk(&entries, self.view.next, start, end, budget)
            }
            _ => {
                let entries = BareEntries {
                    head,
                    keys,
                    back,
                    chain,
                };
                walk(&entries, self.view.next, start, end, budget)
            }
        }
    }

    // Walks the free chain, which is to take up the whole budget.
    fn free_chain_stands(&self, budget: usize) -> bool
        requires { budget ≤ length self.now.view.next.now }
        ensures { result ≡ eqb (verify (ok_free self.now.state.now.head.kind (links_at self.now.state.now self.now.view.next.now self.now.view.back.now) self.now.view.keys.now self.now.view.values.now) self.now.view.next.now (get_or self.now.state.now.last free_chain 0) budget 0 (get_or self.now.state.now.first free_chain 0)) 1 }
    {
        let slots = FreeSlots {
            kind: self.state.head.kind,
            keys: self.view.keys,
            values: self.view.values,
            back: self.view.back,
        };
        let (start, end) = (self.state.first[FREE], self.state.last[FREE]);
        walk(&slots, self.view.next, start, end, budget) == Some(0)
    }

    // Walks every chain but the free one. None may end where the free chain ends: two chains that share
    // a slot share their last one. The busy words must be those of the chains that were walked. Gives
    // what is left of a budget of n slots, if all may stand.
    fn walk_all(&self) -> Option<usize>
        ensures { left_over result ≡ scanned self.now.state.now.head (links_at self.now.state.now self.now.view.next.now self.now.view.back.now) self.now.view.keys.now }
    {
        let mut left = self.view.next.len();
        let mut seen: [u64; 3] = [0; 3];
        for c in 0..FREE {
            let end = self.state.last[c];
            if end != 0 {
                if end == self.state.last[FREE] {
                    return None;
                }
                mark(&mut seen, c);
            }
            left = self.walk_entries(c, left)?;
        }
        if has_busy(self.state, seen) {
            Some(left)
        } else {
            None
        }
    }

    // Are all chains as they must be, and every slot on one of them?
    fn stands(&self) -> bool
        ensures { cond result 0 2 ≡ finish (world_seen self.now.state.now self.now.view) (scanned self.now.state.now.head (links_at self.now.state.now self.now.view.next.now self.now.view.back.now) self.now.view.keys.now) }
    {
        match self.walk_all() {
            Some(left) => left + self.state.head.len as usize == self.view.next.len()
                && self.free_chain_stands(left),
            None => false,
        }
    }
}

// Is the pool fit, with no more than 4,096 slots, and sound? Any state and any slices may be handed in.
pub fn examine(state: &State, view: View) -> Result<(), Refusal>
    ensures { told result ≡ examined (world_seen state.now view.entry) }
{
    if !fits(state.head.kind, view) {
        return Err(Refusal::Unfit);
    }
    let pool = FitPool {
        state,
        view,
        reader: Reader::of(state.head.kind),
    };
    if top_is_plain(state.head) && pool.stands() {
        return Ok(());
    }
    Err(Refusal::Unsound)
}
