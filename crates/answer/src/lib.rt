// The reply to an event: how it is laid out, its word, and the names of the trust points that it may show.
#![tactic(auto)]

ghost use Rattle.std.specs.Prelude.{◌≡◌, length};
ghost use Rattle.buffers.specs.Lay.{Written};
ghost use Rattle.answer.specs.Answer.{step_tag, refused_layout, layout_of, reply_to};

use event::{Event, Refusal};
use reply::Layout;
use run::Step;
use status::Word;
use trust::Points;

// The tag of what a step answers, which is no number of the step.
fn step_tag(step: Step) -> u16
    ensures { result ≡ step_tag step }
{
    match step {
        Step::Nonce => 0x80,
        Step::Map => 0x82,
        Step::Agree => 0x84,
        Step::Confirm => 0x86,
    }
}

fn refused_layout(w: Refusal) -> Layout
    ensures { result ≡ refused_layout w }
{
    match w {
        Refusal::Outside => Layout::Silent,
        Refusal::Length
        | Refusal::Lacking
        | Refusal::Blocked
        | Refusal::Unusable
        | Refusal::Moment
        | Refusal::Data
        | Refusal::Parameters
        | Refusal::NotFound
        | Refusal::Instruction
        | Refusal::Class => Layout::Bare,
    }
}

#[tactic(auto, unfolding(crate::specs::Answer::layout_of))]
fn layout_of(e: Event) -> Layout
    ensures { result ≡ layout_of e }
{
    match e {
        Event::Refused(w) => refused_layout(w),
        Event::StepPassed(_, step) => Layout::Nest(step_tag(step)),
        Event::Opened(_) => Layout::Confirmed,
        Event::Challenged => Layout::Flat,
        Event::Authenticated => Layout::Pair,
        Event::Lost(_)
        | Event::Chosen(_, _)
        | Event::RunClosed
        | Event::TrialLost(_)
        | Event::Selected(_)
        | Event::LinkTaken
        | Event::DvTaken(_)
        | Event::TerminalTaken
        | Event::Announced
        | Event::Proven
        | Event::ProofLost
        | Event::ChipKeyChosen
        | Event::ChipLost
        | Event::ReadAllowed
        | Event::PinChanged
        | Event::UnblockedByPuk
        | Event::UnblockedByRight
        | Event::Activated
        | Event::Deactivated
        | Event::NotPassed => Layout::Bare,
    }
}

// The reply to an event, with the trust points held after it.
#[tactic(auto, unfolding(crate::specs::Answer::reply_to))]
pub fn answer(points: Points, e: Event, first: &[u8], out: &mut [u8]) -> usize
    ensures { Written (reply_to points e first.now (length out.old)) out.old out.new result }
{
    let word = u16::from(Word::from(e));
    reply::reply(out, layout_of(e), word, first, points.names())
}
