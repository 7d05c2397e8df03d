// A certificate as the token keeps it: a trust point, a DV or a terminal.
#![tactic(auto)]

ghost use Rattle.std.specs.Prelude.{◌≡◌};
ghost use Rattle.certificate.specs.Certificate.{no_certificate, certificate_fits, expired, with_key, today_after};

use days::Day;
use names::Name;
use rights::Rights;

#[derive(Clone, Copy)]
pub struct Certificate {
    pub name: Name,
    pub rights: Rights,
    pub first: Day,
    pub last: Day,
    pub key: u64,
}

impl Certificate {
    #[tactic(auto, unfolding(crate::specs::Certificate::no_certificate))]
    pub fn none() -> Self
        ensures { result ≡ no_certificate }
    {
        Certificate {
            name: Name::none(),
            rights: Rights(0),
            first: Day(0),
            last: Day(0),
            key: 0,
        }
    }

    // Whether name, rights and days are within their limits, the first day not after the last.
    #[tactic(auto, unfolding(crate::specs::Certificate::certificate_fits))]
    pub fn fits(self) -> bool
        ensures { result ≡ certificate_fits self }
    {
        self.name.fits()
            && self.rights.fits()
            && self.first.fits()
            && self.last.fits()
            && !self.last.before(self.first)
    }

    // Whether the last day has passed.
    #[tactic(auto, unfolding(crate::specs::Certificate::expired))]
    pub fn expired(self, today: Day) -> bool
        ensures { result ≡ expired self today }
    {
        self.last.before(today)
    }

    // The same certificate with the number of the key that was taken in.
    #[tactic(auto, unfolding(crate::specs::Certificate::with_key))]
    pub fn with_key(self, key: u64) -> Self
        ensures { result ≡ with_key self key }
    {
        Certificate { key, ..self }
    }
}

// The day once a terminal under this DV is taken: only that of a domestic official DV moves it.
pub fn today_after(dv: Certificate, terminal: Certificate, today: Day) -> Day
    ensures { result ≡ today_after dv terminal today }
{
    if dv.rights.role().is_official() {
        today.later(terminal.first)
    } else {
        today
    }
}
