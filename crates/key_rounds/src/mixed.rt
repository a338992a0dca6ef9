// Mixed keys: packed, read back, compared and measured.
use crate::{line, order, rounds};
use keys::{Kind, Mixed, Parts, REVERSED, SIGNED, Signed, Table, Words};

// 32,16,8r: a day, a road and a reversed priority, which lie in the second word.
fn jobs() -> Table {
    Table::of(32, 16, 8 + REVERSED, 0)
}

// 8,64s,8: the signed part lies across both words.
fn across() -> Table {
    Table::of(8, 64 + SIGNED, 8, 0)
}

// 16s,16: a signed part with a plain one after it.
fn signed_first() -> Table {
    Table::of(16 + SIGNED, 16, 0, 0)
}

// 16,32,64r,16: all of both words.
fn full() -> Table {
    Table::of(16, 32, 64 + REVERSED, 16)
}

fn parts(first: u64, second: u64, third: u64, fourth: u64) -> Parts {
    Parts {
        first,
        second,
        third,
        fourth,
    }
}

// The parts of a key with the table `across`.
fn apart(first: u64, number: i64, third: u64) -> Parts {
    parts(first, u64::from(Signed(number)), third, 0)
}

// The parts of a key with the table `signed_first`: the number's pattern in 16 bits.
fn numbered(number: i64, second: u64) -> Parts {
    parts(u64::from(Signed(number)) % 65536, second, 0, 0)
}

// Are these the words of the parts' key, and does each come back from the other?
fn packed(table: Table, p: Parts, first: u64, second: u64) -> bool {
    let key = Mixed(first, second);
    keys::pack(table, p) == Some(key)
        && rounds::mixed_round(table, key) == Some(key)
        && rounds::parts_round(table, p) == Some(p)
}

// Are the parts refused?
fn unfit(table: Table, p: Parts) -> bool {
    keys::pack(table, p).is_none()
}

// Is the key of `p` above that of `q` and not the other way round?
fn above(table: Table, p: Parts, q: Parts) -> bool {
    match (keys::pack(table, p), keys::pack(table, q)) {
        (Some(a), Some(b)) => order::above_by(Kind::mixed(table), Words::from(a), Words::from(b)),
        _ => false,
    }
}

// Are the keys of `p` and of `q` this far apart, from either side?
fn far(table: Table, p: Parts, q: Parts, distance: u32) -> bool {
    let kind = Kind::mixed(table);
    match (keys::pack(table, p), keys::pack(table, q)) {
        (Some(a), Some(b)) => order::far_by(kind, Words::from(a), Words::from(b), distance),
        _ => false,
    }
}

fn round_lines(rt: &impl Print) {
    line(
        rt,
        "mixed 32,16,8r (0,0,0): words 0 and 0, back the same",
        packed(jobs(), parts(0, 0, 0, 0), 0, 0),
    );
    line(
        rt,
        "mixed 32,16,8r (19,4,1): words 0 and 318768129, back the same",
        packed(jobs(), parts(19, 4, 1, 0), 0, 318768129),
    );
    line(
        rt,
        "mixed 32,16,8r (2147483648,32768,128): words 0 and 36028797027352704, back the same",
        packed(
            jobs(),
            parts(2147483648, 32768, 128, 0),
            0,
            36028797027352704,
        ),
    );
    line(
        rt,
        "mixed 32,16,8r (4294967295,65535,255): words 0 and 72057594037927935, back the same",
        packed(
            jobs(),
            parts(4294967295, 65535, 255, 0),
            0,
            72057594037927935,
        ),
    )
}

fn full_lines(rt: &impl Print) {
    line(
        rt,
        "mixed 16,32,64r,16 (1,2,3,4): words 281474976841728 and 196612, back the same",
        packed(full(), parts(1, 2, 3, 4), 281474976841728, 196612),
    );
    let w = 18446744073709551615;
    line(
        rt,
        "mixed 16,32,64r,16 of the greatest parts: every bit set, back the same",
        packed(full(), parts(65535, 4294967295, w, 65535), w, w),
    )
}

// Of the signed part 8 bits lie in the first word and 56 in the second.
fn across_lines(rt: &impl Print) {
    line(
        rt,
        "mixed 8,64s,8 (0,-1,0): words 255 and 18446744073709551360, back the same",
        packed(across(), apart(0, -1, 0), 255, 18446744073709551360),
    );
    line(
        rt,
        "mixed 8,64s,8 (1,-9223372036854775808,2): words 384 and 2, back the same",
        packed(across(), apart(1, -9223372036854775808, 2), 384, 2),
    );
    line(
        rt,
        "mixed 8,64s,8 (0,9223372036854775807,255): words 127 and 18446744073709551615, back the same",
        packed(
            across(),
            apart(0, 9223372036854775807, 255),
            127,
            18446744073709551615,
        ),
    );
    line(
        rt,
        "mixed 8,64s,8 (255,-1,255): words 65535 and 18446744073709551615, back the same",
        packed(across(), apart(255, -1, 255), 65535, 18446744073709551615),
    )
}

fn unfit_lines(rt: &impl Print) {
    line(
        rt,
        "mixed 32,16,8r (4294967296,0,0): does not fit",
        unfit(jobs(), parts(4294967296, 0, 0, 0)),
    );
    line(
        rt,
        "mixed 32,16,8r (0,65536,0): does not fit",
        unfit(jobs(), parts(0, 65536, 0, 0)),
    );
    line(
        rt,
        "mixed 32,16,8r (0,0,256): does not fit",
        unfit(jobs(), parts(0, 0, 256, 0)),
    );
    line(
        rt,
        "mixed 32,16,8r (0,0,0,1): does not fit",
        unfit(jobs(), parts(0, 0, 0, 1)),
    )
}

// In each of these the later part alone would say the opposite.
fn signed_lines(rt: &impl Print) {
    line(
        rt,
        "mixed 16s,16 (1,0) above (0,65535)",
        above(signed_first(), numbered(1, 0), numbered(0, 65535)),
    );
    line(
        rt,
        "mixed 16s,16 (0,0) above (-1,65535)",
        above(signed_first(), numbered(0, 0), numbered(-1, 65535)),
    );
    line(
        rt,
        "mixed 16s,16 (-1,0) above (-32768,65535)",
        above(signed_first(), numbered(-1, 0), numbered(-32768, 65535)),
    );
    line(
        rt,
        "mixed 16s,16 (32767,0) above (-32768,65535)",
        above(signed_first(), numbered(32767, 0), numbered(-32768, 65535)),
    );
    line(
        rt,
        "mixed 8,64s,8 (7,0,0) above (7,-1,255)",
        above(across(), apart(7, 0, 0), apart(7, -1, 255)),
    );
    line(
        rt,
        "mixed 8,64s,8 (1,-9223372036854775808,0) above (0,9223372036854775807,255)",
        above(
            across(),
            apart(1, -9223372036854775808, 0),
            apart(0, 9223372036854775807, 255),
        ),
    )
}

// A later part counts only if the earlier ones are equal.
fn order_lines(rt: &impl Print) {
    line(
        rt,
        "mixed 32,16,8r (2,0,255) above (1,65535,0)",
        above(jobs(), parts(2, 0, 255, 0), parts(1, 65535, 0, 0)),
    );
    line(
        rt,
        "mixed 32,16,8r (2,5,255) above (2,4,0)",
        above(jobs(), parts(2, 5, 255, 0), parts(2, 4, 0, 0)),
    );
    line(
        rt,
        "mixed 32,16,8r (2,4,1) above (2,4,2)",
        above(jobs(), parts(2, 4, 1, 0), parts(2, 4, 2, 0)),
    );
    line(
        rt,
        "mixed 32,16,8r (2,4,0) above (2,4,255)",
        above(jobs(), parts(2, 4, 0, 0), parts(2, 4, 255, 0)),
    );
    line(
        rt,
        "mixed 16,32,64r,16 (1,1,8,0) above (1,1,9,65535)",
        above(full(), parts(1, 1, 8, 0), parts(1, 1, 9, 65535)),
    )
}

fn distance_lines(rt: &impl Print) {
    let job = parts(19, 4, 1, 0);
    line(
        rt,
        "mixed 32,16,8r (19,4,1) to itself: distance 0",
        far(jobs(), job, job, 0),
    );
    line(
        rt,
        "mixed 32,16,8r (19,4,1) to (19,4,2): distance 2",
        far(jobs(), job, parts(19, 4, 2, 0), 2),
    );
    line(
        rt,
        "mixed 32,16,8r (19,4,1) to (19,5,200): distance 9",
        far(jobs(), job, parts(19, 5, 200, 0), 9),
    );
    line(
        rt,
        "mixed 32,16,8r (19,4,1) to (18,9,200): distance 25",
        far(jobs(), job, parts(18, 9, 200, 0), 25),
    );
    line(
        rt,
        "mixed 16s,16 (0,0) to (-1,0): distance 32",
        far(signed_first(), numbered(0, 0), numbered(-1, 0), 32),
    );
    line(
        rt,
        "mixed 8,64s,8 (7,0,0) to (7,-1,0): distance 72",
        far(across(), apart(7, 0, 0), apart(7, -1, 0), 72),
    );
    line(
        rt,
        "mixed 8,64s,8 (7,0,0) to (6,0,0): distance 73",
        far(across(), apart(7, 0, 0), apart(6, 0, 0), 73),
    )
}

pub fn lines(rt: &impl Print) {
    round_lines(rt);
    across_lines(rt);
    full_lines(rt);
    unfit_lines(rt);
    signed_lines(rt);
    order_lines(rt);
    distance_lines(rt)
}
