// The ways a plan ends, the jobs it may want, and what a note does to a session.
#![tactic(auto)]

ghost use Rattle.std.specs.Prelude.{◌≡◌};
ghost use Rattle.plans.specs.Numbers.{note_number, note_read, job_read};
ghost use Rattle.plans.specs.Plans.{settled_by, awaits_by, guard_of, ending_job, job_number};

use brought::Brought;
use event::{Event, Loss};
use run::Step;

// How a command came, by its number.
#[derive(Clone, Copy, PartialEq, Eq)]
pub enum Note {
    Plain = 0,
    Protected = 1,
    Broken = 2,
}

// What the crypto unit is asked to do.
#[derive(Clone, Copy, PartialEq, Eq)]
pub enum Job {
    Nothing,
    Step(Step),
    Certificate,
    Challenge,
    Proof,
    ChipKey,
    PinChange,
}

// An event, or a job with the event if it is passed and the event otherwise.
#[derive(Clone, Copy, PartialEq, Eq)]
pub enum Ending {
    Settled(Event),
    Awaits(Job, Event, Event),
}

// How a plan ends, with what was brought: the certificate that was read, the key that was announced or is to be compared.
#[derive(Clone, Copy)]
pub struct Plan {
    pub ending: Ending,
    pub brought: Brought,
}

// A number that no note, or no job, has.
#[derive(Clone, Copy, PartialEq, Eq)]
pub struct UnknownNumber(pub u8);

impl Note {
    // Lets a command pass, or says how the session is lost.
    pub fn guard(self, opened: bool) -> Result<(), Loss>
        ensures { result ≡ guard_of self opened }
    {
        match (self, opened) {
            (Note::Plain, false) | (Note::Protected, true) => Ok(()),
            (Note::Plain, true) => Err(Loss::Unprotected),
            (Note::Protected, false) | (Note::Broken, _) => Err(Loss::Broken),
        }
    }
}

impl From<Note> for u8 {
    ghost from_gives = { λ note n. n ≡ note_number note };

    fn from(note: Note) -> u8 {
        note as u8
    }
}

impl TryFrom<u8> for Note {
    type Error = UnknownNumber;

    ghost try_from_gives = { λ n read. read ≡ note_read n };

    #[tactic(auto, unfolding(crate::specs::Numbers::note_at))]
    fn try_from(n: u8) -> Result<Note, UnknownNumber> {
        match n {
            0 => Ok(Note::Plain),
            1 => Ok(Note::Protected),
            2 => Ok(Note::Broken),
            _ => Err(UnknownNumber(n)),
        }
    }
}

impl From<Job> for u8 {
    ghost from_gives = { λ job n. n ≡ job_number job };

    fn from(job: Job) -> u8 {
        match job {
            Job::Nothing => 0,
            Job::Step(step) => step.number(),
            Job::Certificate => 5,
            Job::Challenge => 6,
            Job::Proof => 7,
            Job::ChipKey => 8,
            Job::PinChange => 9,
        }
    }
}

impl TryFrom<u8> for Job {
    type Error = UnknownNumber;

    ghost try_from_gives = { λ n read. read ≡ job_read n };

    #[tactic(auto, unfolding(crate::specs::Numbers::job_at))]
    fn try_from(n: u8) -> Result<Job, UnknownNumber> {
        match n {
            0 => Ok(Job::Nothing),
            1 => Ok(Job::Step(Step::Nonce)),
            2 => Ok(Job::Step(Step::Map)),
            3 => Ok(Job::Step(Step::Agree)),
            4 => Ok(Job::Step(Step::Confirm)),
            5 => Ok(Job::Certificate),
            6 => Ok(Job::Challenge),
            7 => Ok(Job::Proof),
            8 => Ok(Job::ChipKey),
            9 => Ok(Job::PinChange),
            _ => Err(UnknownNumber(n)),
        }
    }
}

impl Ending {
    pub fn job(self) -> Job
        ensures { result ≡ ending_job self }
    {
        match self {
            Ending::Settled(_) => Job::Nothing,
            Ending::Awaits(job, _, _) => job,
        }
    }
}

impl Plan {
    // Settled, with nothing brought.
    #[tactic(auto, unfolding(crate::specs::Plans::settled_by))]
    pub fn settled(event: Event) -> Self
        ensures { result ≡ settled_by event }
    {
        Plan {
            ending: Ending::Settled(event),
            brought: Brought::none(),
        }
    }

    // A job, with nothing brought.
    #[tactic(auto, unfolding(crate::specs::Plans::awaits_by))]
    pub fn awaits(job: Job, passed: Event, otherwise: Event) -> Self
        ensures { result ≡ awaits_by job passed otherwise }
    {
        Plan {
            ending: Ending::Awaits(job, passed, otherwise),
            brought: Brought::none(),
        }
    }
}
