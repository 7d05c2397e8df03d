// All checks before the verdict, in document 01's order.
ghost use Rattle.std.specs.Prelude.{◌≡◌};
ghost use Rattle.plans.specs.Plans.{ending_job};
ghost use Rattle.token.specs.Plan.{command_of, given_of, timed_of, requested_of, plan_of};

use super::state::Token;
use brought::Brought;
use certify::Verifier;
use event::{Event, Refusal};
use fields::asked::{Ask, Asked};
use fields::given::Given;
use moment::moment;
use plans::{Job, Note, Plan};
use standing::is_open;

impl Token {
    // The command's own checks, with what it brought.
    #[tactic(auto, unfolding(crate::specs::Plan::command_of))]
    fn command(self, brought: Brought, ask: Ask) -> Plan
        ensures { result ≡ command_of self brought ask }
    {
        let context = self.session.context;
        match ask {
            Ask::Choose(choice) => {
                checks::choose(self.pin, self.active, self.puk, context.opened, choice)
            }
            Ask::General(content) => checks::general(context, self.pin, content),
            Ask::Select => certify::select(self.points, context.chain, brought.name),
            Ask::Verify => {
                let verifier = Verifier {
                    points: self.points,
                    dv: context.chain.dv,
                    today: self.today,
                };
                verifier.verify(self.session.selected, brought)
            }
            Ask::Announce => checks::announce(context.chain.terminal.name, brought),
            Ask::Challenge => Plan::awaits(Job::Challenge, Event::Challenged, Event::NotPassed),
            Ask::Prove => Plan::awaits(Job::Proof, Event::Proven, Event::ProofLost),
            Ask::ChooseChipKey => Plan::settled(Event::ChipKeyChosen),
            Ask::Read(group) => checks::read(context, group),
            Ask::ChangePin => checks::change_pin(context, self.active),
            Ask::Unblock => checks::unblock(context, self.pin, self.puk),
            Ask::Activate => checks::set_active(context, Event::Activated),
            Ask::Deactivate => checks::set_active(context, Event::Deactivated),
        }
    }

    // Data, then the command's own checks.
    #[tactic(auto, unfolding(crate::specs::Plan::given_of))]
    fn given(self, given: Option<Given>) -> Plan
        ensures { result ≡ given_of self given }
    {
        match given {
            Some(Given { ask, brought }) => self.command(brought, ask),
            None => Plan::settled(Event::Refused(Refusal::Data)),
        }
    }

    // Moment, then the data.
    #[tactic(auto, unfolding(crate::specs::Plan::timed_of))]
    fn timed(self, asked: Asked) -> Plan
        ensures { result ≡ timed_of self asked }
    {
        if !moment(self.session, asked.kind, asked.chained) {
            return Plan::settled(Event::Refused(Refusal::Moment));
        }
        self.given(asked.given)
    }

    // Form, CLA, INS, P1-P2, presence.
    #[tactic(auto, unfolding(crate::specs::Plan::requested_of))]
    fn requested(self, asked: Result<Asked, Refusal>) -> Plan
        ensures { result ≡ requested_of self asked }
    {
        match asked {
            Ok(asked) => self.timed(asked),
            Err(refusal) => Plan::settled(Event::Refused(refusal)),
        }
    }

    // The limits, then protection.
    #[tactic(auto, unfolding(crate::specs::Plan::plan_of, crate::specs::Plan::guarded))]
    pub(crate) fn plan(self, s: &[u8], note: Note) -> Plan
        ensures { result ≡ plan_of self s.now note }
    {
        if !self.in_limits() {
            return Plan::settled(Event::Refused(Refusal::Outside));
        }
        match note.guard(is_open(self.session.context.opened)) {
            Ok(()) => self.requested(fields::asked_of(s)),
            Err(loss) => Plan::settled(Event::Lost(loss)),
        }
    }

    // Which job a command and its note want.
    pub fn job(self, s: &[u8], note: Note) -> Job
        ensures { result ≡ ending_job (plan_of self s.now note).ending }
    {
        self.plan(s, note).ending.job()
    }
}
