// The two forms of a bulk push: three entries that lie in three slices, or in a list.
ghost use Rattle.std.specs.Prelude.{◌<◌};

use crate::door;
use crate::sample::Sample;
use bulk::{Entry, Stop};
use keys::Words;

// Three entries: their key words and their values.
#[derive(Clone, Copy)]
pub struct Three {
    keys0: [u64; 3],
    keys1: [u64; 3],
    values: [u64; 3],
}

impl Three {
    pub fn of(keys0: [u64; 3], keys1: [u64; 3], values: [u64; 3]) -> Three {
        Three {
            keys0,
            keys1,
            values,
        }
    }

    fn entry(self, i: usize) -> Entry
        requires { i < 3 }
    {
        Entry {
            key: Words {
                first: self.keys0[i],
                second: self.keys1[i],
            },
            value: self.values[i],
        }
    }

    fn listed(self) -> [Entry; 3] {
        [self.entry(0), self.entry(1), self.entry(2)]
    }
}

#[derive(Clone, Copy)]
pub enum Form {
    Slices,
    List,
}

// What a call was told, and what it left.
#[derive(Clone, Copy)]
pub struct Ran {
    pub told: Result<(), Stop>,
    pub after: Sample,
}

impl Form {
    // How the text of a line begins: of three entries that are taken, and of a form that is refused.
    pub fn of_three(self) -> &'static str {
        match self {
            Form::Slices => "",
            Form::List => "a list of ",
        }
    }

    pub fn name(self) -> &'static str {
        match self {
            Form::Slices => "",
            Form::List => "a list ",
        }
    }

    pub fn run(self, before: Sample, three: Three) -> Ran {
        let mut slots = before.slots;
        let answer = match self {
            Form::Slices => bulk::extend_wide(
                before.state,
                &mut slots.lend(),
                &three.keys0,
                &three.keys1,
                &three.values,
            ),
            Form::List => door::extend_three(before.state, &mut slots.lend(), three.listed()),
        };
        Ran {
            told: answer.told,
            after: Sample {
                state: answer.state,
                slots,
            },
        }
    }
}
