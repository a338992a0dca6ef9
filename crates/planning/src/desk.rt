// A desk with room for eight jobs: a heap's state, and the arrays that it lends to each call as a pool.
use crate::job::Job;
use keys::{Kind, Mixed, Table, Words};
use pool::{Answer, Pool, Refusal, State};

// A mixed key takes two words in the pool, so that eight slots have sixteen.
#[derive(Clone, Copy)]
struct Slots {
    keys: [u64; 16],
    values: [u64; 8],
    next: [u32; 8],
    back: [u32; 8],
}

impl Slots {
    fn lend(&mut self) -> Pool<'_> {
        let Slots {
            keys,
            values,
            next,
            back,
        } = self;
        Pool {
            keys,
            values,
            next,
            back,
        }
    }
}

#[derive(Clone, Copy)]
pub struct Desk {
    state: State,
    slots: Slots,
}

impl Desk {
    // No jobs, and any job may come.
    pub fn open(table: Table) -> Result<Desk, Refusal> {
        let mut slots = Slots {
            keys: [0; 16],
            values: [0; 8],
            next: [0; 8],
            back: [0; 8],
        };
        let Answer { told, state } = heap::new(Kind::mixed(table), &mut slots.lend());
        told?;
        Ok(Desk { state, slots })
    }

    // The desk keeps the state that a call gives, and hands on what the call was told.
    fn kept<T>(&mut self, answer: Answer<T, Refusal>) -> Result<T, Refusal> {
        let Answer { told, state } = answer;
        self.state = state;
        told
    }

    pub fn push(&mut self, key: Mixed, number: u64) -> Result<(), Refusal> {
        let mut pool = self.slots.lend();
        let answer = heap::push(self.state, &mut pool, Words::from(key), number);
        self.kept(answer)
    }

    // Takes the job with the greatest key.
    pub fn pop(&mut self) -> Result<Job, Refusal> {
        let answer = heap::pop(self.state, &mut self.slots.lend());
        let entry = self.kept(answer)?.entry;
        Ok(Job::read(entry.value, Mixed::from(entry.key)))
    }

    // Drops every job and forgets what was taken.
    pub fn clear(&mut self) -> Result<u32, Refusal> {
        let answer = heap::clear(self.state, &mut self.slots.lend());
        self.kept(answer)
    }

    // Drops every job; no key above this one will be taken.
    pub fn clear_to(&mut self, key: Mixed) -> Result<u32, Refusal> {
        let mut pool = self.slots.lend();
        let answer = heap::clear_to(self.state, &mut pool, Words::from(key));
        self.kept(answer)
    }
}
