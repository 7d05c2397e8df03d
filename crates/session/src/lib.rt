// A session: who opened it, what was confirmed, its chain, how far it has come.
#![tactic(auto)]

ghost use Rattle.std.specs.Prelude.{◌≡◌};
ghost use Rattle.session.specs.Session.{no_session, bare_session, rechosen, at_stage, announced_with, chained_to, selecting};
ghost use Rattle.standing.specs.Standing.{no_chain};
ghost use Rattle.standing.specs.declared.Stage.TheVariants.{Announced};

use event::Issuer;
use keys::Key;
use rights::Rights;
use run::{Choice, Password, Step};
use standing::{Chain, Stage};

// What a later store of contexts keeps: all of a session but the selection.
#[derive(Clone, Copy)]
pub struct Context {
    pub opened: Option<Password>,
    pub confirmed: Option<Rights>,
    pub chain: Chain,
    pub stage: Stage,
    pub key: Key,
}

#[derive(Clone, Copy)]
pub struct Session {
    pub context: Context,
    pub selected: Option<Issuer>,
}

impl Session {
    // Nothing but who opened it, its rights and its stage.
    pub fn bare(opened: Option<Password>, confirmed: Option<Rights>, stage: Stage) -> Self
        ensures { result ≡ bare_session opened confirmed stage }
    {
        Session {
            context: Context {
                opened,
                confirmed,
                chain: Chain::none(),
                stage,
                key: Key::none(),
            },
            selected: None,
        }
    }

    pub fn none() -> Self
        ensures { result ≡ no_session }
    {
        Session::bare(None, None, Stage::Idle)
    }

    // A choice is taken: a run opens; rights, chain, selection and stage fall; the opener stays.
    pub fn rechosen(self, choice: Choice) -> Self
        ensures { result ≡ rechosen self choice }
    {
        Session::bare(self.context.opened, None, Stage::Run(choice, Step::Nonce))
    }

    // The same session at another stage.
    pub fn at(mut self, stage: Stage) -> Self
        ensures { result ≡ at_stage self stage }
    {
        self.context.stage = stage;
        self
    }

    // A proof was lost: its challenge falls, the announcement stays.
    pub fn proof_lost(self) -> Self
        ensures { result ≡ at_stage self Announced }
    {
        self.at(Stage::Announced)
    }

    // Announced, with this key.
    pub fn announced(mut self, key: Key) -> Self
        ensures { result ≡ announced_with self key }
    {
        self.context.stage = Stage::Announced;
        self.context.key = key;
        self
    }

    // Another chain: selection and announcement fall.
    pub fn chained(self, chain: Chain) -> Self
        ensures { result ≡ chained_to self chain }
    {
        Session {
            context: Context {
                chain,
                stage: Stage::Idle,
                key: Key::none(),
                ..self.context
            },
            selected: None,
        }
    }

    // A link was taken: no chain; selection and announcement fall.
    pub fn unchained(self) -> Self
        ensures { result ≡ chained_to self no_chain }
    {
        self.chained(Chain::none())
    }

    pub fn selecting(self, issuer: Issuer) -> Self
        ensures { result ≡ selecting self issuer }
    {
        Session {
            selected: Some(issuer),
            ..self
        }
    }
}
