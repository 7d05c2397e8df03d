// The trust points that a token holds: the newest, and perhaps a previous one.
#![tactic(auto)]

ghost use Rattle.std.specs.Prelude.{◌≡◌};
ghost use Rattle.trust.specs.Trust.{trust_point_fits, one_point, two_points, points_fit, knows, found, issuer_of, holds, names_of, linked};

use certificate::Certificate;
use event::Issuer;
use names::{Listed, Name};

#[derive(Clone, Copy)]
pub struct Points {
    pub newest: Certificate,
    pub previous: Option<Certificate>,
}

// Whether a trust point is within its limits.
#[tactic(auto, unfolding(crate::specs::Trust::trust_point_fits))]
fn trust_point_fits(p: Certificate) -> bool
    ensures { result ≡ trust_point_fits p }
{
    p.fits() && p.rights.role().is_cvca()
}

impl Points {
    #[tactic(auto, unfolding(crate::specs::Trust::one_point))]
    pub fn one(newest: Certificate) -> Self
        ensures { result ≡ one_point newest }
    {
        Points {
            newest,
            previous: None,
        }
    }

    #[tactic(auto, unfolding(crate::specs::Trust::two_points))]
    pub fn both(newest: Certificate, previous: Certificate) -> Self
        ensures { result ≡ two_points newest previous }
    {
        Points {
            newest,
            previous: Some(previous),
        }
    }

    // Whether the points are within their limits, and their names differ.
    #[tactic(auto, unfolding(crate::specs::Trust::points_fit))]
    pub fn fit(self) -> bool
        ensures { result ≡ points_fit self }
    {
        let newest = self.newest;
        trust_point_fits(newest)
            && self
                .previous
                .is_none_or(|p| trust_point_fits(p) && !p.name.same(newest.name))
    }

    // Whether a trust point has this name.
    #[tactic(auto, unfolding(crate::specs::Trust::knows))]
    pub fn knows(self, name: Name) -> bool
        ensures { result ≡ knows self name }
    {
        name.same(self.newest.name) || self.previous.is_some_and(|p| name.same(p.name))
    }

    // The trust point of this name.
    #[tactic(auto, unfolding(crate::specs::Trust::found))]
    pub fn find(self, name: Name) -> Option<Issuer>
        ensures { result ≡ found self name }
    {
        if name.same(self.newest.name) {
            return Some(Issuer::Newest);
        }
        let previous = self.previous?;
        if name.same(previous.name) {
            return Some(Issuer::Previous);
        }
        None
    }

    // The certificate of an issuer, where the chain's DV is this one.
    pub fn issuer(self, which: Issuer, dv: Certificate) -> Certificate
        ensures { result ≡ issuer_of self which dv }
    {
        match which {
            Issuer::Newest => self.newest,
            Issuer::Previous => self.previous.unwrap_or(Certificate::none()),
            Issuer::Dv => dv,
        }
    }

    // Whether an issuer is there to be selected; whether the chain's DV stands is said.
    pub fn holds(self, which: Issuer, stands: bool) -> bool
        ensures { result ≡ holds self which stands }
    {
        match which {
            Issuer::Newest => true,
            Issuer::Previous => self.previous.is_some(),
            Issuer::Dv => stands,
        }
    }

    // The names held, as a reply shows them: the newest, then the previous.
    pub fn names(self) -> Listed
        ensures { result ≡ names_of self }
    {
        Listed {
            first: self.newest.name,
            second: self.previous.map(|p| p.name),
        }
    }

    // A link becomes newest, and newest becomes previous.
    #[tactic(auto, unfolding(crate::specs::Trust::linked))]
    pub fn linked(self, link: Certificate) -> Self
        ensures { result ≡ linked self link }
    {
        Points {
            newest: link,
            previous: Some(self.newest),
        }
    }
}
