// A walk along one chain, of entries or of free slots: may each slot stand where it does, and does the
// chain end where it says? No marks and no memory: a walk ends by its budget.
ghost use Rattle.std.specs.Prelude.{◌≡◌, Bool, ◌&&◌, ltb, ℕ, ◌<◌, ◌≤◌, length};
ghost use Rattle.pool.specs.Walk.{left_over};
ghost use Rattle.pool.specs.Examine.{verify};

// Which slots may stand on a chain.
pub trait Standing {
    // The slots that may be asked for are those below this number.
    ghost slots: { Self → ℕ };

    // May the slot stand there after the link `before`?
    ghost stands: { Self → ℕ → ℕ → Bool };

    fn may_stand(&self, before: u32, slot: usize) -> bool
        requires { slot < slots self.now }
        ensures { result ≡ stands self.now before slot };
}

// Walks a chain from the link `start`, along at most `budget` slots; it must end at the link `end`.
// Gives what is left of the budget, if every slot may stand where it does.
pub fn walk<T: Standing>(
    chain: &T,
    next: &[u32],
    start: u32,
    end: u32,
    budget: usize,
) -> Option<usize>
    requires slots { T.slots chain.now ≡ length next.now }
    requires budget_in_bounds { budget ≤ length next.now }
    ensures { left_over result ≡ verify (λ p s. ltb s (length next.now) && T.stands chain.now p s) next.now end budget 0 start }
{
    let mut left = budget;
    let mut before: u32 = 0;
    let mut at = start;
    while at != 0 {
        let slot = at as usize - 1;
        if left == 0 || next.len() <= slot || !chain.may_stand(before, slot) {
            return None;
        }
        before = at;
        at = next[slot];
        left -= 1;
    }
    if before == end { Some(left) } else { None }
}
