// The planning desk's jobs on a heap of mixed keys: how such a key is written down, pushed, popped and
// read back.
//
// A job is keyed by day, road and priority, and a pop gives the greatest key first. So the desk plans
// backwards from the last day: the latest day comes first, on one day the greatest road, and on one road
// the smallest priority number, since that part is reversed. Of equal jobs the last pushed comes first.
// What is taken stays as it was planned: a job that would have come before it is refused.
#![tactic(auto)]

mod desk;
mod job;
mod told;

use desk::Desk;
use job::{Job, table};
use keys::{Mixed, REVERSED, Table};
use told::{pops, push, push_all, push_key, tell};

// Days decide, then roads, then priorities; the order of the pushes only where all three are equal. The
// last pop finds no job.
fn in_order(rt: &impl Print, mut desk: Desk) {
    let _ = println!(rt; "Seven jobs, from the last day back:");
    let jobs = [
        Job::of(1, [18, 9, 200]),
        Job::of(2, [19, 4, 3]),
        Job::of(3, [17, 65535, 0]),
        Job::of(4, [19, 4, 1]),
        Job::of(5, [18, 9, 1]),
        Job::of(6, [19, 4, 1]),
        Job::of(7, [19, 2, 1]),
    ];
    push_all(rt, &mut desk, &jobs);
    pops(rt, &mut desk, 8)
}

// A later day comes too late, and so does a more urgent job on the same road. An equal job does not.
fn too_late(rt: &impl Print, mut desk: Desk) {
    let _ = println!(rt; "Jobs that come after one is taken:");
    push(rt, &mut desk, Job::of(1, [19, 4, 2]));
    pops(rt, &mut desk, 1);
    let late = [
        Job::of(2, [20, 1, 9]),
        Job::of(3, [19, 4, 1]),
        Job::of(4, [19, 4, 3]),
        Job::of(5, [19, 4, 2]),
    ];
    push_all(rt, &mut desk, &late);
    pops(rt, &mut desk, 2)
}

// No bit of a part is cut off, and a key has 56 bits and no more.
fn too_wide(rt: &impl Print, mut desk: Desk) {
    let _ = println!(rt; "A part and two keys that are too wide:");
    push(rt, &mut desk, Job::of(1, [19, 65536, 1]));
    push_key(rt, &mut desk, Mixed(0, 1 << 56), 2);
    push_key(rt, &mut desk, Mixed(1, 0), 3)
}

// The parts of a table stand first, and the zeros after them.
fn with_a_hole(rt: &impl Print) {
    let _ = println!(rt; "A table with a hole:");
    tell(rt, Desk::open(Table::of(32, 0, 8 + REVERSED, 0)))
}

// A clear drops the jobs and forgets what was taken, so that later days may come. The table stays.
fn cleared(rt: &impl Print, mut desk: Desk) {
    let _ = println!(rt; "A clear between two plans:");
    push_all(
        rt,
        &mut desk,
        &[Job::of(1, [19, 4, 2]), Job::of(2, [3, 3, 3])],
    );
    pops(rt, &mut desk, 1);
    tell(rt, desk.clear());
    let jobs = [
        Job::of(3, [20, 1, 9]),
        Job::of(4, [20, 1, 8]),
        Job::of(5, [21, 0, 255]),
    ];
    push_all(rt, &mut desk, &jobs);
    pops(rt, &mut desk, 4)
}

// The greatest key of a day has the greatest road and the smallest priority number. No key above it is
// taken after this. The table stays here too.
fn cleared_to(rt: &impl Print, mut desk: Desk) {
    let _ = println!(rt; "A plan that ends with day 20, by clear_to:");
    push(rt, &mut desk, Job::of(1, [3, 3, 3]));
    if let Some(last) = Job::of(0, [20, 65535, 0]).key() {
        tell(rt, desk.clear_to(last));
    }
    let jobs = [
        Job::of(2, [21, 0, 255]),
        Job::of(3, [20, 7, 2]),
        Job::of(4, [20, 7, 1]),
    ];
    push_all(rt, &mut desk, &jobs);
    pops(rt, &mut desk, 3)
}

// Each plan begins with the desk as it was opened.
fn plans(rt: &impl Print, desk: Desk) {
    in_order(rt, desk);
    too_late(rt, desk);
    too_wide(rt, desk);
    with_a_hole(rt);
    cleared(rt, desk);
    cleared_to(rt, desk)
}

// A line that cannot be written is passed over: the next one is tried, and the status is 0.
fn main(rt: HostRuntime) {
    let opened = Desk::open(table());
    tell(&rt, opened);
    if let Ok(desk) = opened {
        plans(&rt, desk);
    }
}
