// What a command comes to once its data is read: its own checks in their order, each with its refusal; and what a run step leads to.
#![tactic(auto)]

ghost use Rattle.std.specs.Prelude.{◌≡◌};
ghost use Rattle.outcome.specs.Outcome.{choose_event, passed_event, other_event, trial_of, grounded, unblock_event};

use event::{Event, Refusal};
use run::{Choice, Password, Step, TRIES};
use standing::opened_by;

// Choose password. What it takes stands apart, in the order of its definition; `unblock` takes other parts of it.
pub fn choose(pin: u8, active: bool, puk: u8, opened: Option<Password>, choice: Choice) -> Event
    ensures { result ≡ choose_event pin active puk opened choice }
{
    let password = choice.password();
    if password.is_pin() && pin == 0 {
        return Event::Refused(Refusal::Blocked); // "counter 0 is 6983"
    }
    if password.is_pin() && !active {
        return Event::Refused(Refusal::Unusable); // "inactive 6984"
    }
    if password.is_pin() && pin == 1 && !opened_by(opened, Password::Can) {
        return Event::Refused(Refusal::Moment); // "counter 1 unless the CAN opened this session is 6985"
    }
    if password.is_puk() && puk == 0 {
        return Event::Refused(Refusal::Blocked); // "PUK with no uses is 6983"
    }
    Event::Chosen(choice, pin)
}

// Run step: what a passed step is.
pub fn passed(choice: Choice, step: Step) -> Event
    ensures { result ≡ passed_event choice step }
{
    if step.is_last() {
        return Event::Opened(choice);
    }
    Event::StepPassed(choice, step)
}

// A fourth step that is not passed costs a PIN run a try.
fn trial(choice: Choice, pin: u8) -> Event
    ensures { result ≡ trial_of choice pin }
{
    if choice.password().is_pin() {
        return Event::TrialLost(pin.saturating_sub(1));
    }
    Event::RunClosed
}

// What a step is that is not passed.
pub fn otherwise(choice: Choice, step: Step, pin: u8) -> Event
    ensures { result ≡ other_event choice step pin }
{
    if step.is_last() {
        return trial(choice, pin);
    }
    Event::RunClosed
}

// What is done on a ground, and refused without one.
pub fn on(has_ground: bool, done: Event) -> Event
    ensures { result ≡ grounded has_ground done }
{
    if has_ground {
        return done;
    }
    Event::Refused(Refusal::Lacking)
}

// Unblock.
pub fn unblock(opened: Option<Password>, right: bool, pin: u8, puk: u8) -> Event
    ensures { result ≡ unblock_event opened right pin puk }
{
    let own = opened_by(opened, Password::Puk);
    if !own && !right {
        return Event::Refused(Refusal::Lacking); // "With no such ground: 6982"
    }
    if own && puk == 0 {
        return Event::Refused(Refusal::Blocked); // "none left 6983"
    }
    if pin == TRIES {
        return Event::Refused(Refusal::Moment); // "Counter 3 is 6985, after 6983"
    }
    if own {
        return Event::UnblockedByPuk;
    }
    Event::UnblockedByRight
}
