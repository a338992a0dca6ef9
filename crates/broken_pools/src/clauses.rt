// Each clause of "A pool is sound when" broken on its own.
use crate::layout::Layout;
use crate::sample::Sample;
use crate::shown::{line, show};
use keys::Kind;
use pool::{CHAINS, FREE, State, View, WAITING};

pub fn sound(rt: &impl Print, kind: Kind) {
    show(rt, "sound, with a top", Sample::with_top(kind));
    show(rt, "sound, entries waiting", Sample::waiting(kind))
}

// "Every slot is on exactly one chain"; "length counts the slots outside the free chain".
pub fn chains(rt: &impl Print, kind: Kind) {
    let sample = Sample::with_top(kind);
    let mut lost = sample;
    lost.next[3] = 0;
    lost.state.last[FREE] = 4;
    show(rt, "a slot on no chain", lost);
    show(rt, "a slot on two chains", shared(kind));
    let fewer = sample.with(|s| s.state.head.len = 2);
    show(rt, "the length too small", fewer);
    let more = sample.with(|s| s.state.head.len = 4);
    show(rt, "the length too great", more)
}

// A slot in bucket 0 and on the free chain at once, where all else is right: key and value are zero,
// and so is the top.
fn shared(kind: Kind) -> Sample {
    let mut sample = Sample::with_top(kind).emptied();
    let mut state = sample.state;
    state.head.len = 1;
    state.head.top0 = 0;
    state.head.top1 = 0;
    (state.first[0], state.last[0]) = (5, 5);
    state.busy = [1, 0, 0];
    sample.state = state;
    sample
}

// "Next links run from first to last and end in 0; back links run the other way, but are 0 on the
// free chain; an empty chain has first and last 0".
pub fn links(rt: &impl Print, kind: Kind) {
    let sample = Sample::with_top(kind);
    let wrong_last = sample.with(|s| s.state.last[0] = 1);
    show(rt, "a last link that is not the last slot", wrong_last);
    let circle = sample.with(|s| s.next[1] = 1);
    show(rt, "next links in a circle", circle);
    let outside = sample.with(|s| s.next[1] = 9);
    show(rt, "a next link past the slots", outside);
    let unset = sample.with(|s| s.back[1] = 0);
    show(rt, "a back link not set", unset);
    let set = sample.with(|s| s.back[4] = 4);
    show(rt, "a back link on the free chain", set);
    let half_empty = sample.with(|s| s.state.last[100] = 3);
    show(rt, "an empty chain with a last link", half_empty)
}

// "With no top, the buckets are empty and both top words are 0".
pub fn no_top(rt: &impl Print, kind: Kind) {
    let sample = Sample::waiting(kind);
    let mut state = sample.state;
    (state.first[0], state.last[0]) = (1, 3);
    (state.first[WAITING], state.last[WAITING]) = (0, 0);
    state.busy = [1, 0, 0];
    let mut busy = sample;
    busy.state = state;
    show(rt, "no top, a bucket that is not empty", busy);
    let worded = sample.with(|s| s.state.head.top0 = 1);
    show(rt, "no top, a first top word", worded)
}

// "With a top, the waiting chain is empty, every key is at most the top, and stands in the bucket of its
// distance to the top".
pub fn a_top(rt: &impl Print, kind: Kind) {
    let layout = Layout::of(kind);
    let late = Sample::laid_out(kind, layout.moved_to(WAITING, [1, 0, 0]));
    show(rt, "a top, and an entry waiting", late);
    show(rt, "keys above the top", above(kind, layout));
    let astray = Sample::laid_out(kind, layout.moved_to(6, [65, 0, 0]));
    show(rt, "an entry in another bucket", astray)
}

// The lower key becomes the top and the other way round, so that the distances stay.
fn above(kind: Kind, layout: Layout) -> Sample {
    let mut sample = Sample::laid_out(kind, layout);
    sample.state.first[0] = 3;
    sample.state.last[0] = 3;
    sample.state.first[layout.chain] = 1;
    sample.state.last[layout.chain] = 2;
    sample.state.head.top0 = layout.lower.first;
    sample.state.head.top1 = layout.lower.second;
    sample
}

// "Free slots hold zero key and value".
pub fn free(rt: &impl Print, kind: Kind) {
    let wide = keys::is_wide(kind);
    let sample = Sample::with_top(kind);
    let keyed = sample.with(|s| s.keys[if wide { 8 } else { 4 }] = 1);
    show(rt, "a free slot with a key", keyed);
    let valued = sample.with(|s| s.values[4] = 1);
    show(rt, "a free slot with a value", valued);
    if !wide {
        let worded = sample.with(|s| s.state.head.top1 = 1);
        show(rt, "a second top word", worded);
    }
}

// Code 1: a kind that is not 1 to 6, and "slice lengths unfit". Kind 5 is set with no table.
pub fn unfit(rt: &impl Print, kind: Kind) {
    let sample = Sample::with_top(kind);
    let view = sample.view();
    let (keys, values) = (&sample.keys[..6], &sample.values[..4]);
    let (next, back) = (&sample.next[..4], &sample.back[..4]);
    let views = [
        ("a value short", View { values, ..view }),
        ("key words that do not fit", View { keys, ..view }),
        ("a next link short", View { next, ..view }),
        ("a back link short", View { back, ..view }),
    ];
    for (text, view) in views {
        line(rt, kind, text, pool::examine(&sample.state, view));
    }
    let kinds = [
        ("the kind set to 0", 0),
        ("the kind set to 5", 5),
        ("the kind set to 7", 7),
    ];
    for (text, number) in kinds {
        let other = sample.with(|s| s.state.head.kind = Kind::bare(number));
        show(rt, text, other);
    }
}

// What only keys of two words can break: their second words.
pub fn second_words(rt: &impl Print, kind: Kind) {
    let topped = Sample::waiting(kind).with(|s| s.state.head.top1 = 1);
    show(rt, "no top, a second top word", topped);
    let keyed = Sample::with_top(kind).with(|s| s.keys[9] = 1);
    show(rt, "a free slot with a second key word", keyed)
}

// 4,096 slots are the most: one more is not fit, and all zero they are fit and not sound.
pub fn too_many_slots(rt: &impl Print) {
    let kind = Kind::bare(1);
    let state = State {
        head: Sample::waiting(kind).state.head,
        first: [0; CHAINS],
        last: [0; CHAINS],
        busy: [0; 3],
    };
    let words = [0; 4097];
    let links = [0; 4097];
    for (text, slots) in [("4,097 slots", 4097), ("4,096 slots on no chain", 4096)] {
        let view = View {
            keys: &words[..slots],
            values: &words[..slots],
            next: &links[..slots],
            back: &links[..slots],
        };
        line(rt, kind, text, pool::examine(&state, view));
    }
}
