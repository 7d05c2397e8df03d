// The moment of each command: over the session, the command's kind and its CLA, before any data is judged.
#![tactic(auto)]

ghost use Rattle.std.specs.Prelude.{◌≡◌};
ghost use Rattle.moment.specs.Moment.{general_moment, moment_of};

use command::kind::Kind;
use session::{Context, Session};
use standing::Stage;

// CLA 10 for steps 1 to 3, 00 for the fourth and for the chip key.
fn general(stage: Stage, chained: bool) -> bool
    ensures { result ≡ general_moment stage chained }
{
    match stage {
        Stage::Run(_, step) => chained != step.is_last(),
        Stage::ChipKeyChosen => !chained,
        _ => false,
    }
}

#[tactic(auto, unfolding(crate::specs::Moment::moment_of))]
pub fn moment(session: Session, kind: Kind, chained: bool) -> bool
    ensures { result ≡ moment_of session kind chained }
{
    let Context {
        confirmed,
        chain,
        stage,
        ..
    } = session.context;
    // both that need confirmed rights and a terminal not yet proven
    let certifies = confirmed.is_some() && stage.unproven();
    match kind {
        Kind::ChoosePassword => true,
        Kind::General => general(stage, chained),
        Kind::SelectIssuer => certifies,
        Kind::VerifyCertificate => certifies && session.selected.is_some(),
        Kind::Announce => chain.has_terminal() && stage.unproven(),
        Kind::Challenge => matches!(stage, Stage::Announced | Stage::Challenged),
        Kind::ProveTerminal => matches!(stage, Stage::Challenged),
        Kind::ChooseChipKey => matches!(stage, Stage::Proven | Stage::ChipKeyChosen),
        Kind::Read(_) | Kind::ChangePin | Kind::Unblock | Kind::Activate | Kind::Deactivate =>
            stage.no_run(),
    }
}
