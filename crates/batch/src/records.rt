// A record, and the operation that it asks for.
ghost use Rattle.std.specs.Prelude.{◌≡◌, ◌+◌, ◌≤◌, length};
ghost use Rattle.batch.specs.Records.{record_at, bare, fields_fit, formed};
ghost use Rattle.batch.specs.Core.{named, operation_of};

use crate::bytes::read_word;
use keys::{Reader, Words};
use pool::{Entry, Refusal};

// A record as its bytes say it: any byte may stand for the operation, so it is a number here, and `rest`
// says whether bytes 1 to 7 are zero. What it asks for is an `Operation`.
#[derive(Clone, Copy)]
pub struct Record {
    pub op: u8,
    pub rest: bool,
    pub key: Words,
    pub value: u64,
}

// A record's operation, with the fields that it uses.
#[derive(Clone, Copy)]
pub enum Operation {
    Push(Entry),
    Pop,
    Constrain,
    Clear,
    ClearTo(Words),
    Top,
    Length,
}

// The record that starts at a place.
pub fn read(bytes: &[u8], at: usize) -> Record
    requires { at + 32 ≤ length bytes.now }
    ensures { result ≡ record_at bytes.now at }
{
    let head = read_word(bytes, at);
    Record {
        op: (head % 256) as u8,
        rest: head / 256 == 0,
        key: Words {
            first: read_word(bytes, at + 8),
            second: read_word(bytes, at + 16),
        },
        value: read_word(bytes, at + 24),
    }
}

// No key and no value.
fn is_bare(r: Record) -> bool
    ensures { result ≡ bare r }
{
    r.key == Words::from(0) && r.value == 0
}

// Are the fields that the operation does not use zero, and is the operation known?
fn fields_fit(reader: Reader, r: Record) -> bool
    ensures { result ≡ fields_fit reader.kind r }
{
    match r.op {
        1 => reader.well_formed(r.key),
        5 => reader.well_formed(r.key) && r.value == 0,
        2 | 3 | 4 | 6 | 7 => is_bare(r),
        _ => false,
    }
}

fn is_formed(reader: Reader, r: Record) -> bool
    ensures { result ≡ formed reader.kind r }
{
    r.rest && fields_fit(reader, r)
}

// The operation of a record whose fields are in order.
fn named(r: Record) -> Operation
    ensures { result ≡ named r }
{
    match r.op {
        1 => Operation::Push(Entry {
            key: r.key,
            value: r.value,
        }),
        2 => Operation::Pop,
        3 => Operation::Constrain,
        4 => Operation::Clear,
        5 => Operation::ClearTo(r.key),
        6 => Operation::Top,
        _ => Operation::Length,
    }
}

// What the record asks for, if its fields are in order.
pub fn operation_of(reader: Reader, r: Record) -> Result<Operation, Refusal>
    ensures { result ≡ operation_of reader.kind r }
{
    if !is_formed(reader, r) {
        return Err(Refusal::Malformed);
    }
    Ok(named(r))
}
