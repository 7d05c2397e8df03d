// What a command brought besides what it asks.
#![tactic(auto)]

ghost use Rattle.std.specs.Prelude.{◌≡◌};
ghost use Rattle.brought.specs.Brought.{brought_none, with_name, with_certificate, with_announced};

use certificate::Certificate;
use keys::Key;
use names::Name;

// The name in 83 or a certificate's issuer, the certificate, the key announced; each `none()` where the command brought none, as
// the definition `brought_none` has them. In the chip key's plan the key is the session's, to be compared.
#[derive(Clone, Copy)]
pub struct Brought {
    pub name: Name,
    pub certificate: Certificate,
    pub key: Key,
}

impl Brought {
    #[tactic(auto, unfolding(crate::specs::Brought::brought_none))]
    pub fn none() -> Self
        ensures { result ≡ brought_none }
    {
        Brought {
            name: Name::none(),
            certificate: Certificate::none(),
            key: Key::none(),
        }
    }

    pub fn with_name(self, name: Name) -> Self
        ensures { result ≡ with_name self name }
    {
        Brought { name, ..self }
    }

    pub fn with_certificate(self, certificate: Certificate) -> Self
        ensures { result ≡ with_certificate self certificate }
    {
        Brought {
            certificate,
            ..self
        }
    }

    // With the key that is announced, or to be compared.
    pub fn with_announced(self, key: Key) -> Self
        ensures { result ≡ with_announced self key }
    {
        Brought { key, ..self }
    }
}
