// Events, and the status word of each.
#![tactic(auto)]

ghost use Rattle.std.specs.Prelude.{◌≡◌};
ghost use Rattle.event.specs.Event.{refusal_word, loss_word, chosen_word, word_of};

use rights::Rights;
use run::{Choice, Step};
use status::Word;

// Why a command changes nothing.
#[derive(Clone, Copy, PartialEq, Eq)]
pub enum Refusal {
    Length,
    Lacking,
    Blocked,
    Unusable,
    Moment,
    Data,
    Parameters,
    NotFound,
    Instruction,
    Class,
    Outside,
}

// How a session is lost.
#[derive(Clone, Copy, PartialEq, Eq)]
pub enum Loss {
    Unprotected,
    Broken,
}

// A certificate that may have issued another.
#[derive(Clone, Copy, PartialEq, Eq)]
pub enum Issuer {
    Newest,
    Previous,
    Dv,
}

#[derive(Clone, Copy, PartialEq, Eq)]
pub enum Event {
    Refused(Refusal),
    Lost(Loss),
    // A choice taken, with the tries that the PIN has left.
    Chosen(Choice, u8),
    StepPassed(Choice, Step),
    Opened(Choice),
    RunClosed,
    // A PIN trial lost, with the tries left after it.
    TrialLost(u8),
    Selected(Issuer),
    LinkTaken,
    // A DV taken, with the rights of the trust point that it was accepted under.
    DvTaken(Rights),
    TerminalTaken,
    Announced,
    Challenged,
    Proven,
    ProofLost,
    ChipKeyChosen,
    Authenticated,
    ChipLost,
    ReadAllowed,
    PinChanged,
    UnblockedByPuk,
    UnblockedByRight,
    Activated,
    Deactivated,
    // A verdict that was not good, where nothing changes.
    NotPassed,
}

impl From<Refusal> for Word {
    ghost from_gives = { λ refusal word. word ≡ refusal_word refusal };

    fn from(refusal: Refusal) -> Word {
        match refusal {
            Refusal::Length => Word::Length,
            Refusal::Lacking => Word::Lacking,
            Refusal::Blocked => Word::Blocked,
            Refusal::Unusable => Word::Unusable,
            Refusal::Moment => Word::Moment,
            Refusal::Data => Word::Data,
            Refusal::Parameters => Word::Parameters,
            Refusal::NotFound => Word::NotFound,
            Refusal::Instruction => Word::Instruction,
            Refusal::Class => Word::Class,
            Refusal::Outside => Word::Outside,
        }
    }
}

impl From<Loss> for Word {
    ghost from_gives = { λ loss word. word ≡ loss_word loss };

    fn from(loss: Loss) -> Word {
        match loss {
            Loss::Unprotected => Word::Unprotected,
            Loss::Broken => Word::Broken,
        }
    }
}

fn chosen_word(choice: Choice, left: u8) -> Word
    ensures { result ≡ chosen_word choice left }
{
    if choice.password().is_pin() && left < run::TRIES {
        return Word::Tries(left);
    }
    Word::Done
}

impl From<Event> for Word {
    ghost from_gives = { λ event word. word ≡ word_of event };

    #[tactic(auto, unfolding(crate::specs::Event::word_of))]
    fn from(event: Event) -> Word {
        match event {
            Event::Refused(refusal) => refusal.into(),
            Event::Lost(loss) => loss.into(),
            Event::Chosen(choice, left) => chosen_word(choice, left),
            Event::TrialLost(left) => Word::Tries(left),
            Event::RunClosed | Event::ProofLost | Event::ChipLost | Event::NotPassed =>
                Word::NotPassed,
            Event::StepPassed(_, _)
            | Event::Opened(_)
            | Event::Selected(_)
            | Event::LinkTaken
            | Event::DvTaken(_)
            | Event::TerminalTaken
            | Event::Announced
            | Event::Challenged
            | Event::Proven
            | Event::ChipKeyChosen
            | Event::Authenticated
            | Event::ReadAllowed
            | Event::PinChanged
            | Event::UnblockedByPuk
            | Event::UnblockedByRight
            | Event::Activated
            | Event::Deactivated => Word::Done,
        }
    }
}
