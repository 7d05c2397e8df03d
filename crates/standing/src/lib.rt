// What stands in a session: who opened it, its chain, the selection, the stage; and the questions about each.
#![tactic(auto)]

ghost use Rattle.std.specs.Prelude.{◌≡◌, eqb};
ghost use Rattle.run.specs.Run.{password_number};
ghost use Rattle.standing.specs.Standing.{is_open, opener_number, has_dv, has_terminal, no_chain, no_run, unproven, from_announced};

use certificate::Certificate;
use rights::Rights;
use run::{Choice, Password, Step};

// How far a chain goes. A DV stands with the rights of the trust point that it was accepted under, a terminal only on its DV.
#[derive(Clone, Copy)]
pub enum Reach {
    Empty,
    ToDv(Rights),
    ToTerminal(Rights),
}

// The certificates stand beside the reach and not in it: checks compare their names whatever the reach is.
#[derive(Clone, Copy)]
pub struct Chain {
    pub reach: Reach,
    pub dv: Certificate,
    pub terminal: Certificate,
}

// How far a session has come.
#[derive(Clone, Copy)]
pub enum Stage {
    Idle,
    Run(Choice, Step),
    Announced,
    Challenged,
    Proven,
    ChipKeyChosen,
    Authenticated,
}

// A session is open when, and only when, a password opened it.
pub fn is_open(opened: Option<Password>) -> bool
    ensures { result ≡ is_open opened }
{
    opened.is_some()
}

// Whether this password opened the session.
pub fn opened_by(opened: Option<Password>, password: Password) -> bool
    ensures { result ≡ eqb (opener_number opened) (password_number password) }
{
    opened == Some(password)
}

impl Chain {
    #[tactic(auto, unfolding(crate::specs::Standing::no_chain))]
    pub fn none() -> Self
        ensures { result ≡ no_chain }
    {
        Chain {
            reach: Reach::Empty,
            dv: Certificate::none(),
            terminal: Certificate::none(),
        }
    }

    pub fn has_dv(self) -> bool
        ensures { result ≡ has_dv self }
    {
        !matches!(self.reach, Reach::Empty)
    }

    pub fn has_terminal(self) -> bool
        ensures { result ≡ has_terminal self }
    {
        matches!(self.reach, Reach::ToTerminal(_))
    }
}

impl Stage {
    // No run is open.
    pub fn no_run(self) -> bool
        ensures { result ≡ no_run self }
    {
        !matches!(self, Stage::Run(_, _))
    }

    // No run is open, and the terminal is not yet proven.
    pub fn unproven(self) -> bool
        ensures { result ≡ unproven self }
    {
        matches!(self, Stage::Idle | Stage::Announced | Stage::Challenged)
    }

    // A stage from announced on.
    pub fn from_announced(self) -> bool
        ensures { result ≡ from_announced self }
    {
        !matches!(self, Stage::Idle | Stage::Run(_, _))
    }
}
