// A batch on a fresh heap of any kind, over a pool of any number of slots that is lent here.
ghost use Rattle.std.specs.Prelude.{◌≡◌, cond, ◌&&◌, ◌+◌, ◌*◌, ◌≤◌, eqb, get_or};

use crate::{serve, tell};
use keys::Kind;
use pool::{LIMIT, Pool, Refusal};

// The number in four bytes, the lowest first, if it is below 65,536; else 65,535, which is more than any
// kind or limit.
pub fn small(bytes: [u8; 4]) -> u32
    ensures { result ≡ cond (eqb (get_or bytes 2 0) 0 && eqb (get_or bytes 3 0) 0) (get_or bytes 0 0 + 256 * get_or bytes 1 0) 65535 }
{
    u32::from_le_bytes(bytes).min(65535)
}

// How many key words n slots have.
fn key_words(kind: Kind, n: usize) -> usize
    requires { n ≤ 4096 }
    ensures { result ≤ 8192 }
{
    if keys::is_wide(kind) { 2 * n } else { n }
}

// Lends a pool of n slots, and room for the answers of 2,048 records.
pub fn serve_slots(kind: Kind, n: usize, records: &[u8]) {
    if LIMIT < n {
        tell(Refusal::Unfit);
        return;
    }
    let words = key_words(kind, n);
    let mut keys = [0; 8192];
    let mut values = [0; 4096];
    let mut next = [0; 4096];
    let mut back = [0; 4096];
    let mut answers = [0; 81920];
    let mut pool = Pool {
        keys: &mut keys[..words],
        values: &mut values[..n],
        next: &mut next[..n],
        back: &mut back[..n],
    };
    serve(kind, &mut pool, records, &mut answers);
}
