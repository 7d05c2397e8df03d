// The commands by CLA, INS and P1-P2, and which of them bring data and Le.
ghost use Rattle.std.specs.Prelude.{◌≡◌};
ghost use Rattle.command.specs.Kind.{class_fits, kind_of, wants_of, present, le_fits};

use super::Fault;

// General is General Authenticate: a run step or the chip key. Read has its group, 1..21.
#[derive(Clone, Copy, PartialEq, Eq)]
pub enum Kind {
    ChoosePassword,
    General,
    SelectIssuer,
    VerifyCertificate,
    Announce,
    Challenge,
    ProveTerminal,
    ChooseChipKey,
    Read(u8),
    ChangePin,
    Unblock,
    Activate,
    Deactivate,
}

// Which Le a command wants.
#[derive(Clone, Copy, PartialEq, Eq)]
pub enum LeRule {
    NoLe,
    Zero,
    Eight,
    AnyLe,
}

// Whether a command wants data, and its Le.
#[derive(Clone, Copy, PartialEq, Eq)]
pub struct Wants {
    pub with_data: bool,
    pub le: LeRule,
}

// Which CLA fits which INS.
pub(crate) fn class_fits(cla: u8, ins: u8) -> bool
    ensures { result ≡ class_fits cla ins }
{
    cla == 0 || cla == 0x10 && ins == 0x86
}

// INS before P1-P2. Of a read, P1 is 80+n, and P2 is any.
#[tactic(auto, using(std::proofs::lemmas::Bool::Decides::nat_tests), unfolding(crate::specs::Kind::kind_of))]
pub(crate) fn kind_of(ins: u8, p1: u8, p2: u8) -> Result<Kind, Fault>
    ensures { result ≡ kind_of ins p1 p2 }
{
    match (ins, form::pair(p1, p2)) {
        (0xB0, _) if 0x81 <= p1 && p1 <= 0x95 => Ok(Kind::Read(p1 - 0x80)),
        (0x22, 0xC1A4) => Ok(Kind::ChoosePassword),
        (0x86, 0x0000) => Ok(Kind::General),
        (0x22, 0x81B6) => Ok(Kind::SelectIssuer),
        (0x2A, 0x00BE) => Ok(Kind::VerifyCertificate),
        (0x22, 0x81A4) => Ok(Kind::Announce),
        (0x84, 0x0000) => Ok(Kind::Challenge),
        (0x82, 0x0000) => Ok(Kind::ProveTerminal),
        (0x22, 0x41A4) => Ok(Kind::ChooseChipKey),
        (0x2C, 0x0203) => Ok(Kind::ChangePin),
        (0x2C, 0x0303) => Ok(Kind::Unblock),
        (0x44, 0x1003) => Ok(Kind::Activate),
        (0x04, 0x1003) => Ok(Kind::Deactivate),
        (0x04 | 0x22 | 0x2A | 0x2C | 0x44 | 0x82 | 0x84 | 0x86 | 0xB0, _) => Err(Fault::Parameters),
        _ => Err(Fault::Instruction),
    }
}

// Data or none, then Le.
pub(crate) fn wants_of(kind: Kind) -> Wants
    ensures { result ≡ wants_of kind }
{
    let (with_data, le) = match kind {
        Kind::ChoosePassword
        | Kind::SelectIssuer
        | Kind::VerifyCertificate
        | Kind::Announce
        | Kind::ProveTerminal
        | Kind::ChooseChipKey
        | Kind::ChangePin => (true, LeRule::NoLe),
        Kind::General => (true, LeRule::Zero),
        Kind::Challenge => (false, LeRule::Eight),
        Kind::Read(_) => (false, LeRule::AnyLe),
        Kind::Unblock | Kind::Activate | Kind::Deactivate => (false, LeRule::NoLe),
    };
    Wants { with_data, le }
}

fn le_fits(rule: LeRule, le: Option<u16>) -> bool
    ensures { result ≡ le_fits rule le }
{
    match rule {
        LeRule::NoLe => le.is_none(),
        LeRule::Zero => le == Some(0),
        LeRule::Eight => le == Some(8),
        LeRule::AnyLe => le.is_some(),
    }
}

// Presence of data and Le.
pub(crate) fn present(wants: Wants, brought: bool, le: Option<u16>) -> bool
    ensures { result ≡ present wants brought le }
{
    wants.with_data == brought && le_fits(wants.le, le)
}
