// Select issuer and verify certificate.
#![tactic(auto)]

ghost use Rattle.std.specs.Prelude.{◌≡◌};
ghost use Rattle.rights.specs.Rights.{role_of};
ghost use Rattle.trust.specs.Trust.{issuer_of};
ghost use Rattle.certify.specs.Certify.{select_plan, repeats, late, issues, taken_event, issued_ending, verify_plan};

use brought::Brought;
use certificate::Certificate;
use days::Day;
use event::{Event, Issuer, Refusal};
use names::Name;
use plans::{Ending, Job, Plan};
use rights::Rights;
use roles::Role;
use standing::Chain;
use trust::Points;

#[tactic(auto, unfolding(crate::specs::Certify::select_plan))]
pub fn select(points: Points, chain: Chain, name: Name) -> Plan
    ensures { result ≡ select_plan points chain name }
{
    if let Some(issuer) = points.find(name) {
        return Plan::settled(Event::Selected(issuer));
    }
    if chain.has_dv() && name.same(chain.dv.name) {
        return Plan::settled(Event::Selected(Issuer::Dv));
    }
    Plan::settled(Event::Refused(Refusal::NotFound))
}

// Whether an issuer may issue a certificate of this role.
fn issues(issuer: Issuer, role: Role) -> bool
    ensures { result ≡ issues issuer role }
{
    match issuer {
        Issuer::Newest | Issuer::Previous => !role.is_terminal(),
        Issuer::Dv => role.is_terminal(),
    }
}

// What a verified certificate of this role is, under a trust point or DV with these rights.
fn taken(role: Role, trusted: Rights) -> Event
    ensures { result ≡ taken_event role trusted }
{
    match role {
        Role::Cvca => Event::LinkTaken,
        Role::OfficialDv | Role::OtherDv => Event::DvTaken(trusted),
        Role::Terminal => Event::TerminalTaken,
    }
}

// What a certificate is verified against: the trust points, the chain's DV and the day.
#[derive(Clone, Copy)]
pub struct Verifier {
    pub points: Points,
    pub dv: Certificate,
    pub today: Day,
}

impl Verifier {
    // Whether a trust point has the new name, or a terminal's DV.
    #[tactic(auto, unfolding(crate::specs::Certify::repeats))]
    fn repeats(self, name: Name, role: Role) -> bool
        ensures { result ≡ repeats self.points self.dv name role }
    {
        self.points.knows(name) || (role.is_terminal() && name.same(self.dv.name))
    }

    // Whether certificate or issuer is past its last day; a link may be.
    #[tactic(auto, unfolding(crate::specs::Certify::late))]
    fn late(self, certificate: Certificate, issuer: Certificate, role: Role) -> bool
        ensures { result ≡ late self.today certificate issuer role }
    {
        !role.is_cvca() && (certificate.expired(self.today) || issuer.expired(self.today))
    }

    // The checks of a certificate under this issuer.
    // Each ends the plan where it stands: a Result on the way would need the ladder of `issued_ending` a second time.
    #[tactic(auto, unfolding(crate::specs::Certify::issued_ending))]
    fn issued(self, which: Issuer, brought: Brought) -> Ending
        ensures { result ≡ issued_ending self.points self.dv self.today which (issuer_of self.points which self.dv) brought (role_of brought.certificate.rights) }
    {
        let certificate = brought.certificate;
        let role = certificate.rights.role();
        let issuer = self.points.issuer(which, self.dv);
        if !issues(which, role) {
            return Ending::Settled(Event::Refused(Refusal::Data)); // "else 6A80"
        }
        if self.repeats(certificate.name, role) {
            return Ending::Settled(Event::Refused(Refusal::Data)); // "A new name differs .. (6A80)"
        }
        if !brought.name.same(issuer.name) {
            return Ending::Settled(Event::Refused(Refusal::NotFound)); // "whose name must equal 42 (6A88)"
        }
        if self.late(certificate, issuer, role) {
            return Ending::Settled(Event::Refused(Refusal::Unusable)); // "last day before today (6984)"
        }
        Ending::Awaits(
            Job::Certificate,
            taken(role, issuer.rights),
            Event::NotPassed,
        )
    }

    // What becomes of a certificate that was brought, under the selected issuer.
    #[tactic(auto, unfolding(crate::specs::Certify::verify_plan, crate::specs::Certify::under_plan))]
    pub fn verify(self, selected: Option<Issuer>, brought: Brought) -> Plan
        ensures { result ≡ verify_plan self.points self.dv self.today selected brought }
    {
        let Some(which) = selected else {
            return Plan::settled(Event::Refused(Refusal::Moment)); // the moment has refused this before
        };
        Plan {
            ending: self.issued(which, brought),
            brought,
        }
    }
}
