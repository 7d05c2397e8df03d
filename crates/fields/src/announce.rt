// The data of an announcement: 80 the protocol, 83 the terminal, 67 auxiliary data, 91 the compressed key.
ghost use Rattle.std.specs.Prelude.{◌≡◌, false, None};
ghost use Rattle.objects.specs.Objects.{objects_at};
ghost use Rattle.objects.specs.Chain.{counted};
ghost use Rattle.keys.specs.Keys.{is_key};
ghost use Rattle.taking.specs.Taking.{fitted};
ghost use Rattle.fields.specs.Announce.{announce_of, terminal_then, auxiliary_then, key_then};

use super::given::Given;
use bodies::MECHANISM;
use keys::Key;
use names::Name;
use objects::Content;
use taking::{identified, last, named, sized};

// 91 with a key.
#[tactic(auto, unfolding(keys::specs::Keys::is_key))]
fn keyed(s: &[u8]) -> Option<Content>
    ensures { result ≡ fitted 0x91 false is_key s.now }
{
    sized(s, 0x91, 1, Key::MOST)
}

// 91, and nothing after it, with so many objects before it.
#[tactic(auto, using(crate::proofs::Ways::chains, crate::proofs::Ways::ends), unfolding(crate::specs::Announce::key_then))]
fn from_key(s: &[u8], name: Name, used: usize) -> Option<Given>
    ensures { result ≡ counted None used (objects_at 1 s.now) (key_then name s.now) }
{
    if objects::ALLOWANCE <= used {
        return None;
    }
    let Content { start, end } = last(keyed(s), s.len())?;
    Some(Given::announce(name, Key::of(&s[start..end])))
}

// Perhaps 67, well-formed.
#[tactic(auto, using(crate::proofs::Ways::chains))]
fn from_auxiliary(s: &[u8], name: Name) -> Option<Given>
    ensures { result ≡ counted None 2 (objects_at 1 s.now) (auxiliary_then name s.now) }
{
    let Some(Content { start, end }) = objects::find(s, 0x67, true) else {
        return from_key(s, name, 2);
    };
    let n = objects::read_list(&s[start..end], objects::DEPTH - 2, objects::ALLOWANCE - 3)?;
    from_key(&s[end..], name, 3 + n)
}

// 83 with the terminal's name.
#[tactic(auto, using(crate::proofs::Ways::chains), unfolding(crate::specs::Announce::terminal_then))]
fn from_terminal(s: &[u8]) -> Option<Given>
    ensures { result ≡ counted None 1 (objects_at 1 s.now) (terminal_then s.now) }
{
    let Content { start, end } = named(s)?;
    from_auxiliary(&s[end..], Name::of(&s[start..end]))
}

#[tactic(auto, using(crate::proofs::Ways::chains), unfolding(crate::specs::Announce::announce_of, crate::specs::Announce::protocol_then))]
pub(crate) fn announce(s: &[u8]) -> Option<Given>
    ensures { result ≡ announce_of s.now }
{
    // Without 06 and its length.
    let found = identified(s, &MECHANISM[2..])?;
    from_terminal(&s[found.end..])
}
