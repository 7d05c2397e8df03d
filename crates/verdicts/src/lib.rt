// The verdict decides: one rule for every job.
#![tactic(auto)]

ghost use Rattle.std.specs.Prelude.{◌≡◌, length};
ghost use Rattle.verdicts.specs.Numbers.{verdict_number, verdict_at};
ghost use Rattle.verdicts.specs.Verdicts.{job_fits, matches, taken_in, ends_by, passes_by, decided_of};

use brought::Brought;
use event::Event;
use keys::Key;
use plans::{Ending, Job, Plan};
use run::Step;
use strings::STRING;

// The verdict on a job; the passed case carries the key number.
#[derive(Clone, Copy, PartialEq, Eq)]
pub enum Verdict {
    Passed(u64),
    Failed,
    Missing,
}

// A crypto result, its two strings apart.
#[derive(Clone, Copy, PartialEq, Eq)]
pub struct Answered {
    pub job: Job,
    pub verdict: Verdict,
}

// What happened, and how many bytes of the first string are answered.
#[derive(Clone, Copy)]
pub struct Happened {
    pub event: Event,
    pub brought: Brought,
    pub answer: usize,
}

impl From<Verdict> for u8 {
    ghost from_gives = { λ verdict n. n ≡ verdict_number verdict };

    fn from(verdict: Verdict) -> u8 {
        match verdict {
            Verdict::Missing => 0,
            Verdict::Passed(_) => 1,
            Verdict::Failed => 2,
        }
    }
}

// The way back; a key number counts with passed only.
#[tactic(auto, unfolding(crate::specs::Numbers::verdict_at))]
pub fn verdict_of(n: u8, key: u64) -> Option<Verdict>
    ensures { result ≡ verdict_at n key }
{
    match n {
        0 => Some(Verdict::Missing),
        1 => Some(Verdict::Passed(key)),
        2 => Some(Verdict::Failed),
        _ => None,
    }
}

// Whether two strings have the lengths of this job's.
fn fits(job: Job, first: usize, second: usize) -> bool
    ensures { result ≡ job_fits job first second }
{
    match job {
        Job::Nothing => false,
        Job::Step(Step::Confirm) | Job::Challenge => first == 8 && second == 0,
        Job::Step(_) => 1 <= first && first <= STRING && second == 0,
        Job::Certificate | Job::Proof | Job::PinChange => first == 0 && second == 0,
        Job::ChipKey => first == 16 && 1 <= second && second <= Key::MOST,
    }
}

// The chip key's second string must be the announced key, whole.
fn matches(job: Job, key: Key, second: &[u8]) -> bool
    ensures { result ≡ matches job key second.now }
{
    job != Job::ChipKey || key.is(second)
}

// A passed certificate's key number is kept with it.
fn taken_in(job: Job, brought: Brought, number: u64) -> Brought
    ensures { result ≡ taken_in job brought number }
{
    if job == Job::Certificate {
        return brought.with_certificate(brought.certificate.with_key(number));
    }
    brought
}

// What happens where nothing is answered.
#[tactic(auto, unfolding(crate::specs::Verdicts::ends_by))]
fn ends(plan: Plan, event: Event) -> Happened
    ensures { result ≡ ends_by plan event }
{
    Happened {
        event,
        brought: plan.brought,
        answer: 0,
    }
}

// What happens where the job was passed.
#[tactic(auto, unfolding(crate::specs::Verdicts::passes_by))]
fn passes(plan: Plan, job: Job, number: u64, event: Event, answer: usize) -> Happened
    ensures { result ≡ passes_by plan job number event answer }
{
    Happened {
        event,
        brought: taken_in(job, plan.brought, number),
        answer,
    }
}

// A missing verdict is never a good one; a result for another job, or with other lengths, counts as none.
#[tactic(auto, unfolding(crate::specs::Verdicts::ending_of, crate::specs::Verdicts::awaited_of, crate::specs::Verdicts::judged_of))]
pub fn decide(plan: Plan, answered: Answered, first: &[u8], second: &[u8]) -> Happened
    ensures { result ≡ decided_of plan answered (length first.now) second.now }
{
    let (job, passed, otherwise) = match plan.ending {
        Ending::Settled(event) => return ends(plan, event),
        Ending::Awaits(job, passed, otherwise) => (job, passed, otherwise),
    };
    let Verdict::Passed(number) = answered.verdict else {
        return ends(plan, otherwise);
    };
    let counts = answered.job == job && fits(job, first.len(), second.len());
    if counts && matches(job, plan.brought.key, second) {
        return passes(plan, job, number, passed, first.len());
    }
    ends(plan, otherwise)
}
