// The limits of a session's parts.
#![tactic(auto)]

ghost use Rattle.std.specs.Prelude.{◌≡◌};
ghost use Rattle.session_limits.specs.SessionLimits.{granted_fits, trusted_fits, dv_fits, terminal_fits, chain_fits, stage_fits, ground_fits, context_fits};

use certificate::Certificate;
use rights::Rights;
use run::Password;
use session::Context;
use standing::{Chain, Reach, Stage, opened_by};

fn granted_fits(granted: Option<Rights>) -> bool
    ensures { result ≡ granted_fits granted }
{
    granted.is_none_or(|r| r.fits())
}

// The rights of the trust point that a DV was accepted under.
#[tactic(auto, unfolding(crate::specs::SessionLimits::trusted_fits))]
fn trusted_fits(trusted: Rights) -> bool
    ensures { result ≡ trusted_fits trusted }
{
    trusted.fits() && trusted.role().is_cvca()
}

// This and the next are a line each; one function that takes the role's test would be longer than both.
#[tactic(auto, unfolding(crate::specs::SessionLimits::dv_fits))]
fn dv_fits(dv: Certificate) -> bool
    ensures { result ≡ dv_fits dv }
{
    dv.fits() && dv.rights.role().is_dv()
}

#[tactic(auto, unfolding(crate::specs::SessionLimits::terminal_fits))]
fn terminal_fits(terminal: Certificate) -> bool
    ensures { result ≡ terminal_fits terminal }
{
    terminal.fits() && terminal.rights.role().is_terminal()
}

// What stands in a chain is good; what does not stand there is not judged.
#[tactic(auto, unfolding(crate::specs::SessionLimits::chain_fits))]
fn chain_fits(chain: Chain) -> bool
    ensures { result ≡ chain_fits chain }
{
    match chain.reach {
        Reach::Empty => true,
        Reach::ToDv(trusted) => trusted_fits(trusted) && dv_fits(chain.dv),
        Reach::ToTerminal(trusted) => trusted_fits(trusted)
            && dv_fits(chain.dv)
            && terminal_fits(chain.terminal),
    }
}

// No PIN run stands at counter 0.
fn stage_fits(stage: Stage, pin: u8) -> bool
    ensures { result ≡ stage_fits stage pin }
{
    let Stage::Run(choice, _) = stage else {
        return true;
    };
    !(choice.password().is_pin() && pin == 0) && granted_fits(choice.rights())
}

// What each part stands on: rights on an opener, a chain on rights, a stage from announced on upon rights, terminal and key.
#[tactic(auto, unfolding(crate::specs::SessionLimits::ground_fits))]
fn ground_fits(c: Context) -> bool
    ensures { result ≡ ground_fits c }
{
    let rights = c.confirmed.is_some();
    let opener = opened_by(c.opened, Password::Pin) || opened_by(c.opened, Password::Can);
    let announced = rights && c.chain.has_terminal() && c.key.stands();
    (!rights || opener) && (!c.chain.has_dv() || rights) && (!c.stage.from_announced() || announced)
}

// Whether a session's parts are within their limits, with this PIN counter.
#[tactic(auto, unfolding(crate::specs::SessionLimits::context_fits))]
pub fn context_fits(context: Context, pin: u8) -> bool
    ensures { result ≡ context_fits context pin }
{
    granted_fits(context.confirmed)
        && chain_fits(context.chain)
        && stage_fits(context.stage, pin)
        && context.key.fits()
        && ground_fits(context)
}
