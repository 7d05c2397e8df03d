// Where a step changes the token: one arm an event.
ghost use Rattle.std.specs.Prelude.{◌≡◌};
ghost use Rattle.token.specs.After.{choice_taken, step_passed, opened, run_closed, trial_lost, issuer_selected, link_taken, dv_taken, extended, terminal_taken, announced, staged, unblocked_by_puk, unblocked, tries_after, after_of};
ghost use Rattle.token.specs.State.{with_active};
ghost use Rattle.standing.specs.declared.Stage.TheVariants.{Announced};

use super::state::Token;
use certificate::{Certificate, today_after};
use event::{Event, Issuer};
use keys::Key;
use rights::Rights;
use run::{Choice, Step};
use session::Session;
use standing::{Chain, Reach, Stage};
use verdicts::Happened;

// The PIN's tries when a session opens with this choice.
fn tries_after(choice: Choice, pin: u8) -> u8
    ensures { result ≡ tries_after choice pin }
{
    if choice.password().is_pin() {
        Token::TRIES
    } else {
        pin
    }
}

// A chain's reach with a terminal under its DV.
fn extended(reach: Reach) -> Reach
    ensures { result ≡ extended reach }
{
    match reach {
        Reach::Empty => Reach::Empty,
        Reach::ToDv(trusted) | Reach::ToTerminal(trusted) => Reach::ToTerminal(trusted),
    }
}

impl Token {
    // A choice is taken: a run opens; rights, chain, selection and stage fall; the opener stays.
    #[tactic(auto, unfolding(crate::specs::After::choice_taken))]
    fn choice_taken(mut self, choice: Choice) -> Self
        ensures { result ≡ choice_taken self choice }
    {
        self.session = self.session.rechosen(choice);
        self
    }

    // The session at another stage.
    #[tactic(auto, unfolding(crate::specs::After::staged))]
    fn staged(mut self, stage: Stage) -> Self
        ensures { result ≡ staged self stage }
    {
        self.session = self.session.at(stage);
        self
    }

    // The challenge is spent.
    #[tactic(auto, unfolding(crate::specs::After::staged))]
    fn proof_lost(mut self) -> Self
        ensures { result ≡ staged self Announced }
    {
        self.session = self.session.proof_lost();
        self
    }

    #[tactic(auto, unfolding(crate::specs::After::step_passed))]
    fn step_passed(mut self, choice: Choice, step: Step) -> Self
        ensures { result ≡ step_passed self choice step }
    {
        self.staged(Stage::Run(choice, step.next()))
    }

    // The fourth step is passed: the session opens afresh.
    #[tactic(auto, unfolding(crate::specs::After::opened))]
    fn opened(mut self, choice: Choice) -> Self
        ensures { result ≡ opened self choice }
    {
        self.pin = tries_after(choice, self.pin);
        self.session = Session::bare(Some(choice.password()), choice.rights(), Stage::Idle);
        self
    }

    // The run is closed: an old session stays open without rights.
    #[tactic(auto, unfolding(crate::specs::After::run_closed))]
    fn run_closed(mut self) -> Self
        ensures { result ≡ run_closed self }
    {
        self.session = Session::bare(self.session.context.opened, None, Stage::Idle);
        self
    }

    #[tactic(auto, unfolding(crate::specs::After::trial_lost))]
    fn trial_lost(mut self, left: u8) -> Self
        ensures { result ≡ trial_lost self left }
    {
        let mut token = self.run_closed();
        token.pin = left;
        token
    }

    #[tactic(auto, unfolding(crate::specs::After::issuer_selected))]
    fn issuer_selected(mut self, issuer: Issuer) -> Self
        ensures { result ≡ issuer_selected self issuer }
    {
        self.session = self.session.selecting(issuer);
        self
    }

    // A link becomes newest, newest becomes previous, the chain is empty.
    #[tactic(auto, unfolding(crate::specs::After::link_taken))]
    fn link_taken(mut self, link: Certificate) -> Self
        ensures { result ≡ link_taken self link }
    {
        self.points = self.points.linked(link);
        self.session = self.session.unchained();
        self.today = self.today.later(link.first);
        self
    }

    // A DV replaces the chain.
    #[tactic(auto, unfolding(crate::specs::After::dv_taken))]
    fn dv_taken(mut self, dv: Certificate, trusted: Rights) -> Self
        ensures { result ≡ dv_taken self dv trusted }
    {
        let chain = Chain {
            reach: Reach::ToDv(trusted),
            dv,
            terminal: Certificate::none(),
        };
        self.session = self.session.chained(chain);
        self.today = self.today.later(dv.first);
        self
    }

    // A terminal replaces the chain's terminal.
    #[tactic(auto, unfolding(crate::specs::After::terminal_taken))]
    fn terminal_taken(mut self, terminal: Certificate) -> Self
        ensures { result ≡ terminal_taken self terminal }
    {
        let old = self.session.context.chain;
        let chain = Chain {
            reach: extended(old.reach),
            terminal,
            ..old
        };
        self.session = self.session.chained(chain);
        self.today = today_after(old.dv, terminal, self.today);
        self
    }

    #[tactic(auto, unfolding(crate::specs::After::announced))]
    fn announced(mut self, key: Key) -> Self
        ensures { result ≡ announced self key }
    {
        self.session = self.session.announced(key);
        self
    }

    // The counter becomes 3.
    #[tactic(auto, unfolding(crate::specs::After::unblocked))]
    fn unblocked(mut self) -> Self
        ensures { result ≡ unblocked self }
    {
        self.pin = Token::TRIES;
        self
    }

    // The PUK takes one use.
    #[tactic(auto, unfolding(crate::specs::After::unblocked_by_puk))]
    fn unblocked_by_puk(mut self) -> Self
        ensures { result ≡ unblocked_by_puk self }
    {
        self.pin = Token::TRIES;
        self.puk = self.puk.saturating_sub(1);
        self
    }

    // Activated or deactivated.
    fn with_active(mut self, active: bool) -> Self
        ensures { result ≡ with_active self active }
    {
        self.active = active;
        self
    }

    #[tactic(auto, unfolding(crate::specs::After::after_of))]
    pub(crate) fn after(mut self, h: Happened) -> Self
        ensures { result ≡ after_of self h.event h.brought }
    {
        match h.event {
            Event::Lost(_) => self.reset(),
            Event::Chosen(choice, _) => self.choice_taken(choice),
            Event::StepPassed(choice, step) => self.step_passed(choice, step),
            Event::Opened(choice) => self.opened(choice),
            Event::RunClosed => self.run_closed(),
            Event::TrialLost(left) => self.trial_lost(left),
            Event::Selected(issuer) => self.issuer_selected(issuer),
            Event::LinkTaken => self.link_taken(h.brought.certificate),
            Event::DvTaken(trusted) => self.dv_taken(h.brought.certificate, trusted),
            Event::TerminalTaken => self.terminal_taken(h.brought.certificate),
            Event::Announced => self.announced(h.brought.key),
            Event::Challenged => self.staged(Stage::Challenged),
            Event::Proven | Event::ChipLost => self.staged(Stage::Proven),
            Event::ProofLost => self.proof_lost(),
            Event::ChipKeyChosen => self.staged(Stage::ChipKeyChosen),
            Event::Authenticated => self.staged(Stage::Authenticated),
            Event::UnblockedByPuk => self.unblocked_by_puk(),
            Event::UnblockedByRight => self.unblocked(),
            Event::Activated => self.with_active(true),
            Event::Deactivated => self.with_active(false),
            Event::Refused(_) | Event::ReadAllowed | Event::PinChanged | Event::NotPassed => self,
        }
    }
}
