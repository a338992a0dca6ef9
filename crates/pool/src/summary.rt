// The busy words: bit b % 64 of word b / 64 says whether bucket b holds an entry.
ghost use Rattle.std.specs.Prelude.{◌≡◌, unwrap_or, is_some};
ghost use Rattle.pool.specs.World.{waiting_chain};
ghost use Rattle.pool.specs.Marks.{marked, unmarked, lowest, any_set};

use crate::state::WAITING;

// The bit of a chain that is not empty is set. The waiting chain and the free chain have none.
#[tactic(auto, using(crate::proofs::CodeMarks::mark_code, crate::proofs::Marks::marked_past))]
pub fn mark(busy: &mut [u64; 3], chain: usize)
    ensures { busy.new ≡ marked busy.old chain }
{
    if chain < WAITING {
        busy[chain / 64] |= 1u64 << (chain % 64);
    }
}

// The bit of a chain that is empty is cleared.
#[tactic(auto, using(crate::proofs::CodeMarks::unmark_code, crate::proofs::Marks::unmarked_past))]
pub fn unmark(busy: &mut [u64; 3], chain: usize)
    ensures { busy.new ≡ unmarked busy.old chain }
{
    if chain < WAITING {
        busy[chain / 64] &= !(1u64 << (chain % 64));
    }
}

// The first bucket that is not empty, counting up from 0, if there is one.
pub fn first_busy(busy: &[u64; 3]) -> Option<usize>
    ensures number { unwrap_or result waiting_chain ≡ lowest busy.now }
    ensures found { is_some result ≡ any_set busy.now }
{
    for j in 0..3 {
        let word = busy[j];
        if word != 0 {
            return Some(64 * j + u64::trailing_zeros(word) as usize);
        }
    }
    None
}
