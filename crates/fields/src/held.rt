// The data of General Authenticate: 7C holding nothing, or one object.
ghost use Rattle.std.specs.Prelude.{◌≡◌};
ghost use Rattle.fields.specs.Held.{general_of, held_in};

use super::asked::{Ask, Content};
use run::Step;
use strings::STRING;
use taking::{holds, last};

// The bytes of a token that confirms.
const TOKEN: usize = 8;

// What the content of a 7C is.
#[tactic(auto, unfolding(crate::specs::Held::held_in))]
fn held(s: &[u8]) -> Option<Ask>
    ensures { result ≡ held_in s.now }
{
    let content = if s.is_empty() {
        Content::Step(Step::Nonce)
    } else if holds(s, 0x81, 1, STRING) {
        Content::Step(Step::Map)
    } else if holds(s, 0x83, 1, STRING) {
        Content::Step(Step::Agree)
    } else if holds(s, 0x85, TOKEN, TOKEN) {
        Content::Step(Step::Confirm)
    } else if holds(s, 0x80, 1, STRING) {
        Content::Chip
    } else {
        return None;
    };
    Some(Ask::General(content))
}

#[tactic(auto, using(crate::proofs::Ways::chains, crate::proofs::Ways::ends), unfolding(crate::specs::Held::general_of))]
pub(crate) fn general(s: &[u8]) -> Option<Ask>
    ensures { result ≡ general_of s.now }
{
    let found = last(objects::find(s, 0x7C, true), s.len())?;
    held(&s[found.start..found.end])
}
