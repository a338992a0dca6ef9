// Why a call is refused, and the number that it gives then.
ghost use Rattle.std.specs.Prelude.{◌≡◌};
ghost use Rattle.pool.specs.Codes.{refusal_code, Names, told};

use std::error::Error;
use std::fmt;

// They are tested in the order 1 2 3 4 5 9 6 7 8 of their codes, and the first that is due is given.
#[derive(Clone, Copy, PartialEq, Eq, Debug)]
pub enum Refusal {
    // The kind is none, its table breaks a limit, the slices do not fit, or there are too many slots.
    Unfit,
    // The pool is not sound.
    Unsound,
    // A batch is not whole records.
    Ragged,
    // The room for answers or for a list is too short.
    NoRoom,
    // A word or a bit is set that must be zero.
    Malformed,
    // The key is a NaN.
    Nan,
    // The key of a push is above the top: too late.
    AboveTop,
    // No slot is free for a push.
    Full,
    // A pop finds the heap empty.
    Empty,
}

impl From<Refusal> for u8 {
    ghost from_gives = { λ refusal code. code ≡ refusal_code refusal };

    #[tactic(auto, unfolding(crate::specs::Codes::refusal_code))]
    fn from(refusal: Refusal) -> u8 {
        match refusal {
            Refusal::Unfit => 1,
            Refusal::Unsound => 2,
            Refusal::Ragged => 3,
            Refusal::NoRoom => 4,
            Refusal::Malformed => 5,
            Refusal::Nan => 9,
            Refusal::AboveTop => 6,
            Refusal::Full => 7,
            Refusal::Empty => 8,
        }
    }
}

// A number that is no refusal's.
#[derive(Clone, Copy, PartialEq, Eq, Debug)]
pub struct UnknownCode(pub u8);

impl TryFrom<u8> for Refusal {
    type Error = UnknownCode;

    ghost try_from_gives = { Names };

    #[tactic(auto, unfolding(crate::specs::Codes::refusal_code, crate::specs::Codes::Names))]
    fn try_from(code: u8) -> Result<Refusal, UnknownCode> {
        match code {
            1 => Ok(Refusal::Unfit),
            2 => Ok(Refusal::Unsound),
            3 => Ok(Refusal::Ragged),
            4 => Ok(Refusal::NoRoom),
            5 => Ok(Refusal::Malformed),
            9 => Ok(Refusal::Nan),
            6 => Ok(Refusal::AboveTop),
            7 => Ok(Refusal::Full),
            8 => Ok(Refusal::Empty),
            _ => Err(UnknownCode(code)),
        }
    }
}

impl fmt::Display for Refusal {
    fn fmt<W: fmt::Write>(&self, f: &mut fmt::Formatter<W>) -> fmt::Result {
        f.write_str(match self {
            Refusal::Unfit => "the kind or the slices do not fit",
            Refusal::Unsound => "the pool is not sound",
            Refusal::Ragged => "the batch is not whole records",
            Refusal::NoRoom => "the room is too short",
            Refusal::Malformed => "malformed: a word or a bit is set that must be zero",
            Refusal::Nan => "the key is a NaN, no number",
            Refusal::AboveTop => "too late, due before one already released",
            Refusal::Full => "no slot is free",
            Refusal::Empty => "the heap is empty",
        })
    }
}

impl fmt::Display for UnknownCode {
    fn fmt<W: fmt::Write>(&self, f: &mut fmt::Formatter<W>) -> fmt::Result {
        write!(f, "no refusal has code {}", self.0)
    }
}

impl Error for Refusal {}

impl Error for UnknownCode {}

// The number of what a call was told: 0 for done.
#[tactic(auto, unfolding(crate::specs::Codes::told))]
pub fn code<T: Drop>(outcome: Result<T, Refusal>) -> u8
    ensures { result ≡ told outcome }
{
    match outcome {
        Ok(_) => 0,
        Err(refusal) => u8::from(refusal),
    }
}
