// What the data of a command give: what is asked, with what is brought.
ghost use Rattle.std.specs.Prelude.{◌≡◌};
ghost use Rattle.fields.specs.Given.{only, selecting, verifying, announcing};

use super::asked::Ask;
use brought::Brought;
use certificate::Certificate;
use keys::Key;
use names::Name;

#[derive(Clone, Copy)]
pub struct Given {
    pub ask: Ask,
    pub brought: Brought,
}

impl Given {
    #[tactic(auto, unfolding(crate::specs::Given::only))]
    pub(crate) fn only(ask: Ask) -> Self
        ensures { result ≡ only ask }
    {
        Given {
            ask,
            brought: Brought::none(),
        }
    }

    #[tactic(auto, unfolding(crate::specs::Given::selecting))]
    pub(crate) fn select(name: Name) -> Self
        ensures { result ≡ selecting name }
    {
        Given {
            ask: Ask::Select,
            brought: Brought::none().with_name(name),
        }
    }

    #[tactic(auto, unfolding(crate::specs::Given::verifying))]
    pub(crate) fn verify(issuer: Name, certificate: Certificate) -> Self
        ensures { result ≡ verifying issuer certificate }
    {
        Given {
            ask: Ask::Verify,
            brought: Brought::none()
                .with_name(issuer)
                .with_certificate(certificate),
        }
    }

    #[tactic(auto, unfolding(crate::specs::Given::announcing))]
    pub(crate) fn announce(name: Name, key: Key) -> Self
        ensures { result ≡ announcing name key }
    {
        Given {
            ask: Ask::Announce,
            brought: Brought::none().with_name(name).with_announced(key),
        }
    }
}
