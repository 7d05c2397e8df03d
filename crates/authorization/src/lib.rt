// The effective authorization of a session.
#![tactic(auto)]

ghost use Rattle.std.specs.Prelude.{◌≡◌};
ghost use Rattle.authorization.specs.Authorization.{trusted_of, shared_by, authorization};

use rights::Rights;
use run::Password;
use session::Context;
use standing::{Chain, Reach, Stage, opened_by};

// The rights of the trust point that the chain stands under.
fn trusted(reach: Reach) -> Rights
    ensures { result ≡ trusted_of reach }
{
    match reach {
        Reach::Empty => Rights(0),
        Reach::ToDv(r) | Reach::ToTerminal(r) => r,
    }
}

// What trust point, DV, terminal and confirmed rights share.
#[tactic(auto, unfolding(crate::specs::Authorization::shared_by))]
fn shared(chain: Chain, granted: Option<Rights>) -> Rights
    ensures { result ≡ shared_by chain granted }
{
    let confirmed = granted.unwrap_or(Rights(0));
    Rights::common(
        trusted(chain.reach),
        chain.dv.rights,
        chain.terminal.rights,
        confirmed,
    )
}

// Nothing before authentication, and nothing where the CAN opened and is not allowed.
#[tactic(auto, unfolding(crate::specs::Authorization::authorization))]
pub fn authorization(context: Context) -> Rights
    ensures { result ≡ authorization context }
{
    if !matches!(context.stage, Stage::Authenticated) {
        return Rights(0);
    }
    let rights = shared(context.chain, context.confirmed);
    if opened_by(context.opened, Password::Can) && !rights.allows_can() {
        return Rights(0);
    }
    rights
}
