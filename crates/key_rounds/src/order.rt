// Order and distance of two keys: of any type, and by their words and kind.
use keys::{Key, Kind, Words};

// Is `a` above `b` and not the other way round?
pub fn above<K: Key>(a: K, b: K) -> bool {
    a.above(b) && !b.above(a)
}

pub fn above_by(kind: Kind, a: Words, b: Words) -> bool {
    keys::above(kind, a, b) && !keys::above(kind, b, a)
}

// Are they this far apart, from either side?
pub fn far<K: Key>(a: K, b: K, distance: u32) -> bool {
    a.distance(b) == distance && b.distance(a) == distance
}

pub fn far_by(kind: Kind, a: Words, b: Words, distance: u32) -> bool {
    keys::distance(kind, a, b) == distance && keys::distance(kind, b, a) == distance
}
