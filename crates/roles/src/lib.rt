// The role of a certificate.
#![tactic(auto)]

ghost use Rattle.std.specs.Prelude.{◌≡◌};
ghost use Rattle.roles.specs.Roles.{role_number, is_cvca, is_official, is_terminal, is_dv};

// Each with its number, as the top two bits of rights have it.
#[derive(Clone, Copy, PartialEq, Eq)]
pub enum Role {
    Cvca = 3,
    OfficialDv = 2,
    OtherDv = 1,
    Terminal = 0,
}

impl Role {
    pub fn number(self) -> u8
        ensures { result ≡ role_number self }
    {
        self as u8
    }

    pub fn is_cvca(self) -> bool
        ensures { result ≡ is_cvca self }
    {
        self == Role::Cvca
    }

    pub fn is_official(self) -> bool
        ensures { result ≡ is_official self }
    {
        self == Role::OfficialDv
    }

    pub fn is_terminal(self) -> bool
        ensures { result ≡ is_terminal self }
    {
        self == Role::Terminal
    }

    // Either DV.
    pub fn is_dv(self) -> bool
        ensures { result ≡ is_dv self }
    {
        matches!(self, Role::OfficialDv | Role::OtherDv)
    }
}
