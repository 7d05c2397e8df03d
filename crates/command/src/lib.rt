// A command's bytes: its form by ISO 7816-3, then CLA, INS, P1-P2, and the presence of data and Le.
#![tactic(auto)]

ghost use Rattle.std.specs.Prelude.{◌≡◌};
ghost use Rattle.command.specs.Shape.{shape_of};

use kind::Kind;

pub mod kind;

// What is wrong with a command before the token is looked at, in the order of the checks.
#[derive(Clone, Copy, PartialEq, Eq)]
pub enum Fault {
    Form,
    Class,
    Instruction,
    Parameters,
    Presence,
}

// A command of a known kind: chained with CLA 10; its data stands from start up to end (none if they are equal).
#[derive(Clone, Copy, PartialEq, Eq)]
pub struct Command {
    pub kind: Kind,
    pub chained: bool,
    pub start: usize,
    pub end: usize,
}

// A command's shape, or the first fault in the order of the checks.
#[tactic(auto, using(crate::proofs::Shapes::header_in), unfolding(crate::specs::Shape::shape_of, crate::specs::Shape::headed_of))]
pub fn shape_of(s: &[u8]) -> Result<Command, Fault>
    ensures { result ≡ shape_of s.now }
{
    let form = form::form_of(s).ok_or(Fault::Form)?;
    let (cla, ins, p1, p2) = (s[0], s[1], s[2], s[3]);
    if !kind::class_fits(cla, ins) {
        return Err(Fault::Class);
    }
    let kind = kind::kind_of(ins, p1, p2)?;
    if !kind::present(kind::wants_of(kind), form.start < form.end, form.le) {
        return Err(Fault::Presence);
    }
    Ok(Command {
        kind,
        chained: cla == 0x10,
        start: form.start,
        end: form.end,
    })
}
