// The calls for a C or a Rust program that links this library: a fresh heap, a batch, the examination.
//
// The state is handed over in parts, each behind a pointer: kind, the four codes of its table, length,
// whether there is a top, its two words, the first and last links of the 131 chains, and the three busy
// words. C has no structs of ours and no `Result`, so these stay side by side, and a refusal is its code.
// A slice is a pointer and a number of elements. No function has a `requires`; that the pointers are good
// is the caller's to see to.
#![tactic(auto)]

ghost use Rattle.std.specs.Prelude.{◌≡◌, false};
ghost use Rattle.pool.specs.World.{links, world};
ghost use Rattle.pool.specs.Examine.{examined};
ghost use Rattle.engine.specs.Outcome.{answered};
ghost use Rattle.heap.specs.Calls.{made};
ghost use Rattle.batch.specs.Batch.{batched, batch};
ghost use Rattle.linked.specs.Parts.{kind_of, head_of};

use keys::{Kind, Table};
use pool::{Head, Pool, State, View};

// `heap::new`. Gives the code.
#[unsafe(no_mangle)]
pub extern "C" fn gaissomet_new(
    wanted: u32,
    codes: &[u8; 4],
    kind: &mut u32,
    table: &mut [u8; 4],
    len: &mut u32,
    topped: &mut bool,
    top0: &mut u64,
    top1: &mut u64,
    first: &mut [u32; 131],
    last: &mut [u32; 131],
    busy: &mut [u64; 3],
    keys: &mut [u64],
    values: &mut [u64],
    next: &mut [u32],
    back: &mut [u32],
) -> u8
    ensures { answered result (world (head_of kind.new table.new len.new topped.new top0.new top1.new) (links first.new last.new next.new back.new busy.new) keys.new values.new) 0 false 0 0 0 0 ≡ made (kind_of wanted codes.now) keys.old values.old next.old back.old }
{
    let mut pool = Pool {
        keys,
        values,
        next,
        back,
    };
    let made = heap::new(kind_of(wanted, *codes), &mut pool);
    hand_back(
        made.state, kind, table, len, topped, top0, top1, first, last, busy,
    );
    pool::code(made.told)
}

// `batch::run`. Gives the code of the batch as a whole; `count` is how many records were answered.
#[unsafe(no_mangle)]
pub extern "C" fn gaissomet_batch(
    kind: &mut u32,
    table: &mut [u8; 4],
    len: &mut u32,
    topped: &mut bool,
    top0: &mut u64,
    top1: &mut u64,
    first: &mut [u32; 131],
    last: &mut [u32; 131],
    busy: &mut [u64; 3],
    keys: &mut [u64],
    values: &mut [u64],
    next: &mut [u32],
    back: &mut [u32],
    records: &[u8],
    answers: &mut [u8],
    count: &mut usize,
) -> u8
    ensures { batched result (world (head_of kind.new table.new len.new topped.new top0.new top1.new) (links first.new last.new next.new back.new busy.new) keys.new values.new) answers.new count.new ≡ batch (world (head_of kind.old table.old len.old topped.old top0.old top1.old) (links first.old last.old next.old back.old busy.old) keys.old values.old) records.now answers.old }
{
    let state = whole(
        *kind, *table, *len, *topped, *top0, *top1, *first, *last, *busy,
    );
    let mut pool = Pool {
        keys,
        values,
        next,
        back,
    };
    let ran = batch::run(state, &mut pool, records, answers);
    hand_back(
        ran.state, kind, table, len, topped, top0, top1, first, last, busy,
    );
    *count = ran.told.unwrap_or(0);
    pool::code(ran.told)
}

// `pool::examine`. Gives the code.
#[unsafe(no_mangle)]
pub extern "C" fn gaissomet_examine(
    kind: u32,
    table: &[u8; 4],
    len: u32,
    topped: bool,
    top0: u64,
    top1: u64,
    first: &[u32; 131],
    last: &[u32; 131],
    busy: &[u64; 3],
    keys: &[u64],
    values: &[u64],
    next: &[u32],
    back: &[u32],
) -> u8
    ensures { result ≡ examined (world (head_of kind table.now len topped top0 top1) (links first.now last.now next.now back.now busy.now) keys.now values.now) }
{
    let state = whole(kind, *table, len, topped, top0, top1, *first, *last, *busy);
    let view = View {
        keys,
        values,
        next,
        back,
    };
    pool::code(pool::examine(&state, view))
}

fn kind_of(number: u32, codes: [u8; 4]) -> Kind
    ensures { result ≡ kind_of number codes }
{
    Kind {
        number,
        table: Table::of(codes[0], codes[1], codes[2], codes[3]),
    }
}

// The state of these parts.
fn whole(
    kind: u32,
    table: [u8; 4],
    len: u32,
    topped: bool,
    top0: u64,
    top1: u64,
    first: [u32; 131],
    last: [u32; 131],
    busy: [u64; 3],
) -> State
    ensures { result ≡ record { head = head_of kind table len topped top0 top1; first = first; last = last; busy = busy } }
{
    let head = Head {
        kind: kind_of(kind, table),
        len,
        topped,
        top0,
        top1,
    };
    State {
        head,
        first,
        last,
        busy,
    }
}

// The state in its parts again.
fn hand_back(
    state: State,
    kind: &mut u32,
    table: &mut [u8; 4],
    len: &mut u32,
    topped: &mut bool,
    top0: &mut u64,
    top1: &mut u64,
    first: &mut [u32; 131],
    last: &mut [u32; 131],
    busy: &mut [u64; 3],
)
    ensures head { head_of kind.new table.new len.new topped.new top0.new top1.new ≡ state.head }
    ensures first { first.new ≡ state.first }
    ensures last { last.new ≡ state.last }
    ensures busy { busy.new ≡ state.busy }
{
    let State {
        head,
        first: firsts,
        last: lasts,
        busy: bits,
    } = state;
    let codes = head.kind.table;
    *kind = head.kind.number;
    *table = [codes.first, codes.second, codes.third, codes.fourth];
    *len = head.len;
    *topped = head.topped;
    *top0 = head.top0;
    *top1 = head.top1;
    *first = firsts;
    *last = lasts;
    *busy = bits;
}
