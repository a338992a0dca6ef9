// The depot's job for any kind and any number of slots, for comparing the port with the crate.
//
// Input is the kind, the four codes of its table and the number of slots, four bytes each, the lowest
// first, and then at most 65,536 bytes of records. Output is as the depot's: the answers, or one byte
// with a code.
#![tactic(auto)]

use keys::{Kind, Table};
use pool::Refusal;

fn serve_all(input: &[u8]) {
    let Some((head, records)) = input.split_first_chunk::<12>() else {
        gateway::tell(Refusal::Ragged);
        return;
    };
    let [k0, k1, k2, k3, t0, t1, t2, t3, n0, n1, n2, n3] = *head;
    let kind = Kind {
        number: gateway::small([k0, k1, k2, k3]),
        table: Table::of(t0, t1, t2, t3),
    };
    let slots = gateway::small([n0, n1, n2, n3]);
    gateway::serve_slots(kind, slots as usize, records);
}

fn main() {
    let mut input = [0; 65548];
    let got = io::read_full(0, &mut input);
    serve_all(&input[..got]);
}
