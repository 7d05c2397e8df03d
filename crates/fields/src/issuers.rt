// The data of select issuer and of verify certificate.
ghost use Rattle.std.specs.Prelude.{◌≡◌};
ghost use Rattle.fields.specs.Issuers.{select_of, verify_of};

use super::given::Given;
use names::Name;
use objects::Content;
use taking::{last, named};

// 83 with a name.
#[tactic(auto, using(crate::proofs::Ways::chains, crate::proofs::Ways::ends), unfolding(crate::specs::Issuers::select_of))]
pub(crate) fn select(s: &[u8]) -> Option<Given>
    ensures { result ≡ select_of s.now }
{
    let Content { start, end } = last(named(s), s.len())?;
    Some(Given::select(Name::of(&s[start..end])))
}

// 7F4E and 5F37.
#[tactic(auto, unfolding(crate::specs::Issuers::verified, crate::specs::Issuers::verify_of))]
pub(crate) fn verify(s: &[u8]) -> Option<Given>
    ensures { result ≡ verify_of s.now }
{
    let body = bodies::read_signed(s).ok()?;
    Some(Given::verify(body.issuer, body.certificate))
}
