// The data of a choice: 80 the protocol, 83 the password, 7F4C the rights that it names.
ghost use Rattle.std.specs.Prelude.{◌≡◌, None};
ghost use Rattle.objects.specs.Objects.{objects_at};
ghost use Rattle.objects.specs.Chain.{counted};
ghost use Rattle.fields.specs.Choice.{choice_of, password_then, rights_then, chosen, chosen_for};

use super::asked::Ask;
use objects::Content;
use rights::{Rights, rights_of};
use run::Choice;
use taking::{identified, last, sized};

const PACE: [u8; 10] = [4, 0, 0x7F, 0, 7, 2, 2, 4, 2, 2];

// A password that names no rights.
fn choose(p: u8) -> Option<Ask>
    ensures { result ≡ chosen p }
{
    let choice = match p {
        1 => Choice::Mrz,
        2 => Choice::Can,
        3 => Choice::Pin,
        4 => Choice::Puk,
        _ => return None,
    };
    Some(Ask::Choose(choice))
}

// A password that names rights: the CAN or the PIN.
fn choose_for(p: u8, rights: Rights) -> Option<Ask>
    ensures { result ≡ chosen_for p rights }
{
    let choice = match p {
        2 => Choice::CanFor(rights),
        3 => Choice::PinFor(rights),
        _ => return None,
    };
    Some(Ask::Choose(choice))
}

// Nothing, or 7F4C and nothing after it.
#[tactic(auto, using(crate::proofs::Ways::chains, crate::proofs::Ways::ends))]
fn from_rights(s: &[u8], p: u8) -> Option<Ask>
    ensures { result ≡ counted None 2 (objects_at 1 s.now) (rights_then p s.now) }
{
    if s.is_empty() {
        return choose(p);
    }
    let Content { start, end } = last(objects::find(s, 0x7F4C, true), s.len())?;
    choose_for(p, rights_of(&s[start..end])?)
}

// 83 with one byte.
#[tactic(auto, using(crate::proofs::Ways::passwords), unfolding(crate::specs::Choice::password_then))]
fn from_password(s: &[u8]) -> Option<Ask>
    ensures { result ≡ counted None 1 (objects_at 1 s.now) (password_then s.now) }
{
    let Content { start, end } = sized(s, 0x83, 1, 1)?;
    from_rights(&s[end..], s[start])
}

#[tactic(auto, using(crate::proofs::Ways::chains), unfolding(crate::specs::Choice::choice_of, crate::specs::Choice::protocol_then))]
pub(crate) fn choice(s: &[u8]) -> Option<Ask>
    ensures { result ≡ choice_of s.now }
{
    let found = identified(s, &PACE)?;
    from_password(&s[found.end..])
}
