// The kind of a heap's keys: its number, 1 to 6, and for kind 5 the table of a key's parts.
ghost use Rattle.std.specs.Prelude.{◌≡◌};
ghost use Rattle.keys.specs.Table.{table_of, mixed, bare};
ghost use Rattle.keys.specs.Names.{name_of};

// How a part is read: its code is its bits plus one of these.
pub const UNSIGNED: u8 = 0;

pub const SIGNED: u8 = 1;

pub const REVERSED: u8 = 2;

// The codes of a mixed key's parts, high part first. They are bytes and no enum, because a C program hands
// them over and any byte may be handed in. A part's code is its bits, 8, 16, 32 or 64, plus
// its sort; 0 stands where there is no part. So a day of 32 bits, a road of 16 and a reversed priority
// of 8 are `Table::of(32, 16, 8 + REVERSED, 0)`.
#[derive(Clone, Copy, PartialEq, Eq, Debug)]
pub struct Table {
    pub first: u8,
    pub second: u8,
    pub third: u8,
    pub fourth: u8,
}

impl Table {
    pub fn of(first: u8, second: u8, third: u8, fourth: u8) -> Table
        ensures { result ≡ table_of first second third fourth }
    {
        Table {
            first,
            second,
            third,
            fourth,
        }
    }
}

// What the number of a kind names.
#[derive(Clone, Copy, PartialEq, Eq, Debug)]
pub enum KindName {
    Plain,
    Signed,
    Reversed,
    Pair,
    Mixed,
    Float,
}

// A state holds any number, because any state may be handed in: so the number is no enum. In every kind
// but 5 the table is zero.
#[derive(Clone, Copy, PartialEq, Eq, Debug)]
pub struct Kind {
    pub number: u32,
    pub table: Table,
}

impl Kind {
    // A kind with no table.
    pub fn bare(number: u32) -> Kind
        ensures { result ≡ bare number }
    {
        Kind {
            number,
            table: Table::of(0, 0, 0, 0),
        }
    }

    // Kind 5 with this table.
    pub fn mixed(table: Table) -> Kind
        ensures { result ≡ mixed table }
    {
        Kind { number: 5, table }
    }

    // How keys of this kind are read. A number that is not 1 to 6 is read as 1.
    #[tactic(auto, unfolding(crate::specs::Names::name_of))]
    pub fn name(self) -> KindName
        ensures { result ≡ name_of self.number }
    {
        match self.number {
            2 => KindName::Signed,
            3 => KindName::Reversed,
            4 => KindName::Pair,
            5 => KindName::Mixed,
            6 => KindName::Float,
            _ => KindName::Plain,
        }
    }
}
