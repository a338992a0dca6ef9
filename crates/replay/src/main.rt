// Streams of records, one after the other, each served on a fresh heap of its own: a recorded sample of
// the crate's answers is held against what this writes.
//
// A stream is its kind, the four codes of its table, its number of slots and its number of records, four
// bytes each, the lowest first, and then the records. Output is its answers, or one byte with its code.
// More than 2,048 records are code 4 and a stream that the input cuts off is code 3; after either nothing
// more is read, since where the next stream starts is not known.
#![tactic(auto)]

use keys::{Kind, Table};
use pool::Refusal;

// What stands before a stream's records.
#[derive(Clone, Copy)]
struct Heading {
    kind: Kind,
    slots: usize,
    records: usize,
}

impl Heading {
    fn of(bytes: [u8; 16]) -> Heading {
        let [
            k0,
            k1,
            k2,
            k3,
            t0,
            t1,
            t2,
            t3,
            n0,
            n1,
            n2,
            n3,
            r0,
            r1,
            r2,
            r3,
        ] = bytes;
        Heading {
            kind: Kind {
                number: gateway::small([k0, k1, k2, k3]),
                table: Table::of(t0, t1, t2, t3),
            },
            slots: gateway::small([n0, n1, n2, n3]) as usize,
            records: gateway::small([r0, r1, r2, r3]) as usize,
        }
    }
}

// The heading of the next stream, if there is one.
fn read_heading() -> Result<Option<Heading>, Refusal> {
    let mut bytes = [0; 16];
    match io::read_full(0, &mut bytes) {
        0 => Ok(None),
        16 => Ok(Some(Heading::of(bytes))),
        _ => Err(Refusal::Ragged),
    }
}

// Fills what is lent with a stream's records and serves them.
fn serve_records(kind: Kind, slots: usize, records: &mut [u8]) -> Result<(), Refusal> {
    let got = io::read_full(0, records);
    if got < records.len() {
        return Err(Refusal::Ragged);
    }
    gateway::serve_slots(kind, slots, records);
    Ok(())
}

// Serves the next stream, if there is one. Answers whether there was.
fn serve_next() -> Result<bool, Refusal> {
    let Some(heading) = read_heading()? else {
        return Ok(false);
    };
    if 2048 < heading.records {
        return Err(Refusal::NoRoom);
    }
    let mut room = [0; 65536];
    serve_records(
        heading.kind,
        heading.slots,
        &mut room[..32 * heading.records],
    )?;
    Ok(true)
}

// Nothing says that an input ends, so the turns are those that no run uses up.
fn main() {
    for _ in 0..u64::MAX {
        match serve_next() {
            Ok(true) => {}
            Ok(false) => return,
            Err(refusal) => {
                gateway::tell(refusal);
                return;
            }
        }
    }
}
