// An answer: 40 bytes, all of them written.
ghost use Rattle.std.specs.Prelude.{◌≡◌, ◌≤◌, length};
ghost use Rattle.heap.specs.Calls.{over};
ghost use Rattle.batch.specs.Core.{shown, answer_told};

use crate::bytes::put;
use crate::serving::Reply;
use keys::Words;
use pool::Refusal;

// Writes the answer to the first 40 bytes of what is lent. `len` is the length afterwards.
pub fn write(out: &mut [u8], told: Result<Reply, Refusal>, len: u32)
    requires { 40 ≤ length out.old }
    ensures { out.new ≡ over (answer_told told len) out.old }
{
    match told {
        Ok(reply) => show(out, 0, reply, len),
        Err(refusal) => show(out, u8::from(refusal), Reply::moved(0), len),
    }
}

// Every field at its place: 0 where the reply has none.
fn show(out: &mut [u8], code: u8, reply: Reply, len: u32)
    requires { 40 ≤ length out.old }
    ensures { out.new ≡ over (shown code reply len) out.old }
{
    let key = reply.key.unwrap_or(Words {
        first: 0,
        second: 0,
    });
    out[0] = code;
    out[1] = u8::from(reply.key.is_some());
    put(out, 2, [0; 2]);
    put(out, 4, reply.moves.to_le_bytes());
    put(out, 8, len.to_le_bytes());
    put(out, 12, [0; 4]);
    put(out, 16, key.first.to_le_bytes());
    put(out, 24, key.second.to_le_bytes());
    put(out, 32, reply.value.to_le_bytes());
}
