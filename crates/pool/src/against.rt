// The key of a slot against another. "For pairs the second word counts only if the first words are
// equal": elsewhere it is not read, and 0 stands for it. Kind 5 is told apart first, so that the
// compiler makes a loop of its own for it, and the loops along keys of the other kinds stay as short as
// they are without it. Kinds are told by their numbers here: told by `Kind::name`, the compiler makes one
// loop for all of them (docs/PERFORMANCE.md). Order and distance have a function each: one for both would
// take a closure, and a clause for it.
ghost use Rattle.std.specs.Prelude.{◌≡◌, ◌≢◌, ◌<◌, ◌^◌, not, ◌&&◌, ltb, eqb};
ghost use Rattle.rule.specs.Width.{distance};
ghost use Rattle.keys.specs.Ordered.{width, ordered};
ghost use Rattle.pool.specs.World.{key_word0, key_word1, slot_key};
ghost use Rattle.pool.specs.Fine.{Holds};

use crate::keywords::key_at;
use keys::{Kind, Reader, Words};

// The key of a slot, by where its words stand. The first is read already, and in kind 5 it is any word.
// The second waits: read or not, it is below 2^64.
#[derive(Clone, Copy)]
pub struct SlotKey<'a> {
    pub kind: Kind,
    pub keys: &'a [u64],
    pub slot: usize,
    pub first: u64,
    pub ghost holds: { Holds kind keys.now slot },
    pub ghost begins: { kind.number ≢ 5 → first ≡ key_word0 kind keys.now slot },
    pub ghost fits: { key_word1 kind keys.now slot < 2 ^ 64 },
}

// Are the keys of this kind pairs?
fn is_pair(kind: Kind) -> bool
    ensures { result ≡ eqb kind.number 4 }
{
    kind.number == 4
}

// Are these the first words of pairs, and different, so that they decide?
fn first_decides(kind: Kind, a0: u64, b0: u64) -> bool
    ensures { result ≡ (eqb kind.number 4 && not (eqb a0 b0)) }
{
    is_pair(kind) && a0 != b0
}

impl<'a> SlotKey<'a> {
    ghost use Rattle.pool.specs.Slot.{first_word, second_word, key_of};

    #[tactic(auto, using(keys::proofs::Ordered::wide_pair, keys::proofs::Ordered::wide_bare, crate::proofs::CodeAgainst::word1_fits), unfolding(crate::specs::World::key_word0))]
    pub fn of(kind: Kind, keys: &'a [u64], slot: usize) -> SlotKey<'a>
        requires { Holds kind keys.now slot }
        ensures kind { result.kind ≡ kind }
        ensures slot { result.slot ≡ slot }
        ensures key { key_of result ≡ slot_key kind keys.now slot }
    {
        let first = if is_pair(kind) {
            keys[2 * slot]
        } else {
            keys[slot]
        };
        SlotKey {
            kind,
            keys,
            slot,
            first,
        }
    }

    // The words of the key, in every kind but 5.
    #[tactic(auto, using(keys::proofs::Ordered::wide_pair, keys::proofs::Ordered::wide_bare), unfolding(crate::specs::World::key_word1))]
    fn bare_words(self) -> Words
        requires { self.kind.number ≢ 5 }
        ensures first { result.first ≡ first_word self.entry }
        ensures second { result.second ≡ second_word self.entry }
    {
        let second = if is_pair(self.kind) {
            self.keys[2 * self.slot + 1]
        } else {
            0
        };
        Words {
            first: self.first,
            second,
        }
    }

    // Is this key above the other, in every kind but 5? Here and below each way ends in a call of its own, so
    // that no choice of words is carried through a loop.
    #[tactic(auto, using(crate::proofs::CodeAgainst::above_unread))]
    pub fn bare_above(self, other: Words) -> bool
        requires { self.kind.number ≢ 5 }
        ensures { result ≡ ltb (ordered self.entry.kind other.first other.second) (key_of self.entry) }
    {
        if first_decides(self.kind, self.first, other.first) {
            return keys::above_bare(self.kind, Words::from(self.first), Words::from(other.first));
        }
        keys::above_bare(self.kind, self.bare_words(), other)
    }

    // How far is this key from the other, in every kind but 5?
    #[tactic(auto, using(crate::proofs::CodeAgainst::far_unread))]
    pub fn bare_distance(self, other: Words) -> u32
        requires { self.kind.number ≢ 5 }
        ensures { result ≡ distance (width self.entry.kind) (key_of self.entry) (ordered self.entry.kind other.first other.second) }
    {
        if first_decides(self.kind, self.first, other.first) {
            let (own, other) = (Words::from(self.first), Words::from(other.first));
            return keys::distance_bare(self.kind, own, other);
        }
        keys::distance_bare(self.kind, self.bare_words(), other)
    }

    // Is this key above that of the other slot, in every kind but 5? Of the other slot too the second word
    // waits.
    #[tactic(auto, using(crate::proofs::CodeAgainst::above_unread))]
    fn bare_above_slot(self, other: SlotKey<'_>) -> bool
        requires unmixed { self.kind.number ≢ 5 }
        requires same { other.kind ≡ self.kind }
        ensures { result ≡ ltb (key_of other.entry) (key_of self.entry) }
    {
        if first_decides(self.kind, self.first, other.first) {
            return keys::above_bare(self.kind, Words::from(self.first), Words::from(other.first));
        }
        keys::above_bare(self.kind, self.bare_words(), other.bare_words())
    }

    // The words of the key, in every kind.
    fn words(self) -> Words
        ensures first { result.first ≡ first_word self.entry }
        ensures second { result.second ≡ second_word self.entry }
    {
        key_at(self.kind, self.keys, self.slot)
    }

    // Is this key above the other?
    pub fn above(self, reader: Reader, other: Words) -> bool
        requires { reader.kind ≡ self.kind }
        ensures { result ≡ ltb (ordered self.entry.kind other.first other.second) (key_of self.entry) }
    {
        if self.kind.number == 5 {
            return reader.above(self.words(), other);
        }
        self.bare_above(other)
    }

    // How far is this key from the other?
    pub fn distance(self, reader: Reader, other: Words) -> u32
        requires { reader.kind ≡ self.kind }
        ensures { result ≡ distance (width self.entry.kind) (key_of self.entry) (ordered self.entry.kind other.first other.second) }
    {
        if self.kind.number == 5 {
            return reader.distance(self.words(), other);
        }
        self.bare_distance(other)
    }

    // Is this key above that of the other slot?
    pub fn above_slot(self, reader: Reader, other: SlotKey<'_>) -> bool
        requires reads { reader.kind ≡ self.kind }
        requires same { other.kind ≡ self.kind }
        ensures { result ≡ ltb (key_of other.entry) (key_of self.entry) }
    {
        if self.kind.number == 5 {
            return self.above(reader, other.words());
        }
        self.bare_above_slot(other)
    }
}
