// A job, its key, and how it is printed.
use keys::{Mixed, Parts, REVERSED, Table};
use std::fmt;

// The parts of a job's key, high part first: a day of 32 bits, a road of 16 and a reversed priority of 8.
pub fn table() -> Table {
    Table::of(32, 16, 8 + REVERSED, 0)
}

#[derive(Clone, Copy, PartialEq, Eq, Debug)]
pub struct Job {
    pub number: u64,
    pub day: u64,
    pub road: u64,
    pub priority: u64,
}

impl Job {
    // The job with this number, day, road and priority.
    pub fn of(number: u64, [day, road, priority]: [u64; 3]) -> Job {
        Job {
            number,
            day,
            road,
            priority,
        }
    }

    // Its key, if the three parts fit.
    pub fn key(self) -> Option<Mixed> {
        let parts = Parts {
            first: self.day,
            second: self.road,
            third: self.priority,
            fourth: 0,
        };
        keys::pack(table(), parts)
    }

    // The job read back from its key.
    pub fn read(number: u64, key: Mixed) -> Job {
        let parts = keys::unpack(table(), key);
        Job::of(number, [parts.first, parts.second, parts.third])
    }
}

impl fmt::Display for Job {
    fn fmt<W: fmt::Write>(&self, f: &mut fmt::Formatter<W>) -> fmt::Result {
        write!(
            f,
            "day {}, road {}, priority {}: job {}",
            self.day, self.road, self.priority, self.number
        )
    }
}
