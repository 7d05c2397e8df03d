// Data with no objects in them: a proof, a new PIN.
ghost use Rattle.std.specs.Prelude.{◌≡◌};
ghost use Rattle.fields.specs.Plain.{proof_of, pin_of};

use super::asked::Ask;
use strings::{Class, all};

// The digits of a PIN.
const DIGITS: usize = 6;

#[tactic(auto, unfolding(crate::specs::Plain::proof_of, bodies::specs::Body::is_signature))]
pub(crate) fn proof(s: &[u8]) -> Option<Ask>
    ensures { result ≡ proof_of s.now }
{
    (1..=bodies::SIGNATURE)
        .contains(&s.len())
        .then_some(Ask::Prove)
}

#[tactic(auto, unfolding(crate::specs::Plain::pin_of))]
pub(crate) fn digits(s: &[u8]) -> Option<Ask>
    ensures { result ≡ pin_of s.now }
{
    (s.len() == DIGITS && all(Class::Numeral, s)).then_some(Ask::ChangePin)
}
