// The limits of a state.
ghost use Rattle.std.specs.Prelude.{◌≡◌};
ghost use Rattle.token.specs.Limits.{selectable, in_limits};

use super::state::Token;
use event::Issuer;
use session_limits::context_fits;
use trust::Points;

// Whether a selection is one of the trust points held or the chain's DV.
fn selectable(selected: Option<Issuer>, points: Points, dv: bool) -> bool
    ensures { result ≡ selectable selected points dv }
{
    selected.is_none_or(|issuer| points.holds(issuer, dv))
}

impl Token {
    // Whether the state is within its limits.
    #[tactic(auto, unfolding(crate::specs::Limits::in_limits))]
    pub(crate) fn in_limits(self) -> bool
        ensures { result ≡ in_limits self }
    {
        let chain = self.session.context.chain;
        let held = chain.has_dv();
        (self.pin <= Token::TRIES)
            && (self.puk <= Token::USES)
            && self.today.fits()
            && self.points.fit()
            && context_fits(self.session.context, self.pin)
            && !(held && self.points.knows(chain.dv.name))
            && selectable(self.session.selected, self.points, held)
    }
}
