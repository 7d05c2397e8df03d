// A password run: the choice that opened it, and its step.
#![tactic(auto)]

ghost use Rattle.std.specs.Prelude.{◌≡◌};
ghost use Rattle.run.specs.Run.{password_number, is_pin, is_can, is_puk, password_of, rights_named, step_number, is_last, next_step};

use rights::Rights;

// The tries of the PIN at the start, and the most there are.
pub const TRIES: u8 = 3;

// By its number in object 83.
#[derive(Clone, Copy, PartialEq, Eq)]
pub enum Password {
    Mrz = 1,
    Can = 2,
    Pin = 3,
    Puk = 4,
}

// A password, and the rights that it names: only the CAN and the PIN may name any.
#[derive(Clone, Copy, PartialEq, Eq)]
pub enum Choice {
    Mrz,
    Can,
    CanFor(Rights),
    Pin,
    PinFor(Rights),
    Puk,
}

// The four steps, by TR-03110's names: encrypted nonce, mapping, key agreement, confirmation.
#[derive(Clone, Copy, PartialEq, Eq)]
pub enum Step {
    Nonce = 1,
    Map = 2,
    Agree = 3,
    Confirm = 4,
}

impl Password {
    pub fn number(self) -> u8
        ensures { result ≡ password_number self }
    {
        self as u8
    }

    pub fn is_pin(self) -> bool
        ensures { result ≡ is_pin self }
    {
        self == Password::Pin
    }

    pub fn is_can(self) -> bool
        ensures { result ≡ is_can self }
    {
        self == Password::Can
    }

    pub fn is_puk(self) -> bool
        ensures { result ≡ is_puk self }
    {
        self == Password::Puk
    }
}

impl Choice {
    pub fn password(self) -> Password
        ensures { result ≡ password_of self }
    {
        match self {
            Choice::Mrz => Password::Mrz,
            Choice::Can | Choice::CanFor(_) => Password::Can,
            Choice::Pin | Choice::PinFor(_) => Password::Pin,
            Choice::Puk => Password::Puk,
        }
    }

    pub fn rights(self) -> Option<Rights>
        ensures { result ≡ rights_named self }
    {
        match self {
            Choice::CanFor(rights) | Choice::PinFor(rights) => Some(rights),
            Choice::Mrz | Choice::Can | Choice::Pin | Choice::Puk => None,
        }
    }
}

impl Step {
    pub fn number(self) -> u8
        ensures { result ≡ step_number self }
    {
        self as u8
    }

    pub fn is_last(self) -> bool
        ensures { result ≡ is_last self }
    {
        self == Step::Confirm
    }

    pub fn next(self) -> Step
        ensures { result ≡ next_step self }
    {
        match self {
            Step::Nonce => Step::Map,
            Step::Map => Step::Agree,
            Step::Agree | Step::Confirm => Step::Confirm,
        }
    }
}
