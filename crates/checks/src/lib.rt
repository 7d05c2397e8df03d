// The checks of each command, certificates apart.
#![tactic(auto)]

ghost use Rattle.std.specs.Prelude.{◌≡◌};
ghost use Rattle.plans.specs.Plans.{settled_by};
ghost use Rattle.event.specs.declared.Event.TheVariants.{Refused};
ghost use Rattle.checks.specs.Checks.{manages_pin, is_for, choose_plan, run_plan, chip_plan, general_plan, announce_plan, read_plan, change_plan, unblock_plan, active_plan};

use authorization::authorization;
use brought::Brought;
use event::{Event, Refusal};
use fields::asked::Content;
use keys::Key;
use names::Name;
use plans::{Ending, Job, Plan};
use run::{Choice, Password, Step};
use session::Context;
use standing::{Stage, opened_by};

// Whether 7C holds the data of this step.
fn is_for(content: Content, step: Step) -> bool
    ensures { result ≡ is_for content step }
{
    match content {
        Content::Step(held) => held == step,
        Content::Chip => false,
    }
}

// Bit 5 of the effective authorization.
fn manages_pin(context: Context) -> bool
    ensures { result ≡ manages_pin context }
{
    authorization(context).manages_pin()
}

fn refused(refusal: Refusal) -> Plan
    ensures { result ≡ settled_by (Refused refusal) }
{
    Plan::settled(Event::Refused(refusal))
}

#[tactic(auto, unfolding(crate::specs::Checks::choose_plan))]
pub fn choose(pin: u8, active: bool, puk: u8, opened: Option<Password>, choice: Choice) -> Plan
    ensures { result ≡ choose_plan pin active puk opened choice }
{
    Plan::settled(outcome::choose(pin, active, puk, opened, choice))
}

// A step of an open run.
#[tactic(auto, unfolding(crate::specs::Checks::run_plan))]
fn run_step(pin: u8, choice: Choice, step: Step, content: Content) -> Plan
    ensures { result ≡ run_plan pin choice step content }
{
    if !is_for(content, step) {
        return refused(Refusal::Data);
    }
    let passed = outcome::passed(choice, step);
    let otherwise = outcome::otherwise(choice, step, pin);
    Plan::awaits(Job::Step(step), passed, otherwise)
}

// The chip key, with the announced key to compare.
#[tactic(auto, unfolding(crate::specs::Checks::chip_plan))]
fn chip_key(key: Key, content: Content) -> Plan
    ensures { result ≡ chip_plan key content }
{
    match content {
        Content::Step(_) => refused(Refusal::Data),
        Content::Chip => Plan {
            ending: Ending::Awaits(Job::ChipKey, Event::Authenticated, Event::ChipLost),
            brought: Brought::none().with_announced(key),
        },
    }
}

#[tactic(auto, unfolding(crate::specs::Checks::general_plan))]
pub fn general(context: Context, pin: u8, content: Content) -> Plan
    ensures { result ≡ general_plan context.key pin context.stage content }
{
    match context.stage {
        Stage::Run(choice, step) => run_step(pin, choice, step, content),
        Stage::ChipKeyChosen => chip_key(context.key, content),
        _ => refused(Refusal::Moment),
    }
}

#[tactic(auto, unfolding(crate::specs::Checks::announce_plan))]
pub fn announce(terminal: Name, brought: Brought) -> Plan
    ensures { result ≡ announce_plan terminal brought }
{
    if brought.name.same(terminal) {
        return Plan {
            ending: Ending::Settled(Event::Announced),
            brought,
        };
    }
    refused(Refusal::NotFound)
}

#[tactic(auto, unfolding(crate::specs::Checks::read_plan))]
pub fn read(context: Context, group: u8) -> Plan
    ensures { result ≡ read_plan context group }
{
    Plan::settled(outcome::on(authorization(context).reads(group), Event::ReadAllowed))
}

#[tactic(auto, unfolding(crate::specs::Checks::change_plan))]
pub fn change_pin(context: Context, active: bool) -> Plan
    ensures { result ≡ change_plan context active }
{
    if (opened_by(context.opened, Password::Pin) && active) || manages_pin(context) {
        return Plan::awaits(Job::PinChange, Event::PinChanged, Event::NotPassed);
    }
    refused(Refusal::Lacking)
}

#[tactic(auto, unfolding(crate::specs::Checks::unblock_plan))]
pub fn unblock(context: Context, pin: u8, puk: u8) -> Plan
    ensures { result ≡ unblock_plan context pin puk }
{
    Plan::settled(outcome::unblock(context.opened, manages_pin(context), pin, puk))
}

// Activate and deactivate.
#[tactic(auto, unfolding(crate::specs::Checks::active_plan))]
pub fn set_active(context: Context, done: Event) -> Plan
    ensures { result ≡ active_plan context done }
{
    Plan::settled(outcome::on(manages_pin(context), done))
}
