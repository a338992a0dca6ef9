// The desk's calls, with a line for each job that is taken and for each call that is refused.
use crate::desk::Desk;
use crate::job::Job;
use keys::Mixed;
use pool::Refusal;

// What a call other than a push or a pop is told. Nothing is printed if it is done.
pub fn tell<T: Drop>(rt: &impl Print, told: Result<T, Refusal>) {
    if let Err(refusal) = told {
        let _ = println!(rt; "  refused, code {}", u8::from(refusal));
    }
}

// A job whose parts do not fit has no key to push.
pub fn push(rt: &impl Print, desk: &mut Desk, job: Job) {
    let Some(key) = job.key() else {
        let _ = println!(rt; "  job {}: a part does not fit", job.number);
        return;
    };
    if let Err(refusal) = desk.push(key, job.number) {
        let _ = println!(rt; "  {job} refused, code {}", u8::from(refusal));
    }
}

pub fn push_all(rt: &impl Print, desk: &mut Desk, jobs: &[Job]) {
    for job in jobs {
        push(rt, desk, *job);
    }
}

// A key of any two words. One with a bit that a job's key does not have is printed as it is.
pub fn push_key(rt: &impl Print, desk: &mut Desk, key: Mixed, number: u64) {
    match desk.push(key, number) {
        Ok(()) => {}
        Err(Refusal::Malformed) => {
            let code = u8::from(Refusal::Malformed);
            let _ = println!(rt;
                "  words {} and {}: job {number} refused, code {code}",
                key.0, key.1
            );
        }
        Err(refusal) => {
            let job = Job::read(number, key);
            let _ = println!(rt; "  {job} refused, code {}", u8::from(refusal));
        }
    }
}

// So many pops.
pub fn pops(rt: &impl Print, desk: &mut Desk, count: u32) {
    for _ in 0..count {
        match desk.pop() {
            Ok(job) => {
                let _ = println!(rt; "  {job}");
            }
            Err(refusal) => {
                let _ = println!(rt; "  no job, code {}", u8::from(refusal));
            }
        }
    }
}
