// What a command's bytes ask for, over the bytes alone.
#![tactic(auto)]

ghost use Rattle.std.specs.Prelude.{◌≡◌};
ghost use Rattle.fields.specs.Asked.{asked_of, fault_of, data_of};

use asked::{Ask, Asked};
use command::kind::Kind;
use command::{Command, Fault};
use event::Refusal;
use given::Given;

mod announce;
pub mod asked;
mod chip;
mod choice;
pub mod given;
mod held;
mod issuers;
mod plain;

// The refusal of a faulty shape; no `From`, since both types are other crates'.
fn fault(f: Fault) -> Refusal
    ensures { result ≡ fault_of f }
{
    match f {
        Fault::Form | Fault::Presence => Refusal::Length,
        Fault::Class => Refusal::Class,
        Fault::Instruction => Refusal::Instruction,
        Fault::Parameters => Refusal::Parameters,
    }
}

// What the data of a command of this kind give.
#[tactic(auto, unfolding(crate::specs::Asked::data_of))]
fn data(kind: Kind, s: &[u8]) -> Option<Given>
    ensures { result ≡ data_of kind s.now }
{
    let ask = match kind {
        Kind::SelectIssuer => return issuers::select(s),
        Kind::VerifyCertificate => return issuers::verify(s),
        Kind::Announce => return announce::announce(s),
        Kind::ChoosePassword => choice::choice(s)?,
        Kind::General => held::general(s)?,
        Kind::ProveTerminal => plain::proof(s)?,
        Kind::ChooseChipKey => chip::chip(s)?,
        Kind::ChangePin => plain::digits(s)?,
        Kind::Challenge => Ask::Challenge,
        Kind::Read(group) => Ask::Read(group),
        Kind::Unblock => Ask::Unblock,
        Kind::Activate => Ask::Activate,
        Kind::Deactivate => Ask::Deactivate,
    };
    Some(Given::only(ask))
}

// What a command asks for, or why it is refused before the token is looked at.
#[tactic(auto, using(crate::proofs::Ways::bounds), unfolding(crate::specs::Asked::asked_of, crate::specs::Asked::refusing, crate::specs::Asked::asking))]
pub fn asked_of(s: &[u8]) -> Result<Asked, Refusal>
    ensures { result ≡ asked_of s.now }
{
    let Command {
        kind,
        chained,
        start,
        end,
    } = command::shape_of(s).map_err(fault)?;
    Ok(Asked {
        kind,
        chained,
        given: data(kind, &s[start..end]),
    })
}
