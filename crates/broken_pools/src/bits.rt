// The busy words broken one bit at a time: "bit set exactly when the bucket isn't empty, bits above 128
// zero".
use crate::sample::{Sample, unsound};
use crate::shown::show;
use keys::{Kind, KindName, REVERSED, SIGNED, Table};
use pool::{CHAINS, FREE, Head, State};

const QUARTER: u64 = 1 << 62;

const HALF: u64 = 1 << 63;

const BOTH: u64 = QUARTER + HALF;

// Kind 5 uses all the buckets only by a table of 128 bits: here a signed word, and then a reversed one.
fn kind_of_ends(kind: Kind) -> Kind {
    match kind.name() {
        KindName::Mixed => Kind::mixed(Table::of(64 + SIGNED, 64 + REVERSED, 0, 0)),
        _ => kind,
    }
}

// The top, and keys at distances 63 and 64 from it; of two words also at 127 and 128. The first words
// of kind 5 are those of kind 2, and the second words those of kind 3. The floats are 2.0 and the zeros.
fn keys_of_ends(kind: Kind) -> [u64; 10] {
    match kind.name() {
        KindName::Plain => [BOTH, HALF, 1, 0, 0, 0, 0, 0, 0, 0],
        KindName::Signed => [QUARTER, 0, HALF, 0, 0, 0, 0, 0, 0, 0],
        KindName::Reversed => [0, QUARTER, HALF, 0, 0, 0, 0, 0, 0, 0],
        KindName::Pair => [BOTH, BOTH, BOTH, HALF, BOTH, 1, HALF, 7, 1, 7],
        KindName::Mixed => [QUARTER, 0, QUARTER, QUARTER, QUARTER, HALF, 0, 7, HALF, 7],
        KindName::Float => [QUARTER, 0, HALF, 0, 0, 0, 0, 0, 0, 0],
    }
}

// An entry at each end of each word that the kind has buckets for: in buckets 0, 63 and 64,
fn ends_of_words(kind: Kind) -> Sample {
    let keys = keys_of_ends(kind);
    let mut first = [0; CHAINS];
    let mut last = [0; CHAINS];
    (first[0], last[0]) = (1, 1);
    (first[63], last[63]) = (2, 2);
    (first[64], last[64]) = (3, 3);
    (first[FREE], last[FREE]) = (4, 5);
    let head = Head {
        kind: kind_of_ends(kind),
        len: 3,
        topped: true,
        top0: keys[0],
        top1: 0,
    };
    Sample {
        kind,
        state: State {
            head,
            first,
            last,
            busy: [HALF + 1, 1, 0],
        },
        keys,
        values: [11, 12, 13, 0, 0],
        next: [0, 0, 0, 5, 0],
        back: [0; 5],
    }
}

// and of two words in 127 and 128 too: no slot is free.
fn ends_of_pairs(kind: Kind) -> Sample {
    let mut sample = ends_of_words(kind);
    let mut state = sample.state;
    state.head.len = 5;
    state.head.top1 = sample.keys[1];
    (state.first[127], state.last[127]) = (4, 4);
    (state.first[128], state.last[128]) = (5, 5);
    (state.first[FREE], state.last[FREE]) = (0, 0);
    state.busy = [HALF + 1, HALF + 1, 1];
    sample.state = state;
    sample.values = [11, 12, 13, 14, 15];
    sample.next[3] = 0;
    sample
}

fn ends(kind: Kind) -> Sample {
    if keys::is_wide(kind) {
        ends_of_pairs(kind)
    } else {
        ends_of_words(kind)
    }
}

// The same with one of the 192 bits turned over.
fn turned(kind: Kind, bit: usize) -> Sample {
    let mut sample = ends(kind);
    if let Some(word) = sample.state.busy.get_mut(bit / 64) {
        *word ^= 1 << (bit % 64);
    }
    sample
}

pub fn each_word(rt: &impl Print, kind: Kind) {
    show(rt, "the ends of the busy words", ends(kind));
    let wide = keys::is_wide(kind);
    let bits = [
        (0, true),
        (63, true),
        (64, true),
        (127, wide),
        (128, wide),
        (1, false),
        (65, false),
        (129, false),
        (191, false),
    ];
    for (bit, due) in bits {
        let wrong = if due { "not set" } else { "set" };
        let code = pool::code(turned(kind, bit).told());
        let _ = println!(rt; "kind {}, busy bit {bit} {wrong}: {code}", kind.number);
    }
    let refused = unsound(192, |bit| turned(kind, bit));
    let _ = println!(rt;
        "kind {}, of 192 busy bits turned over, refused: {refused}",
        kind.number
    );
}
