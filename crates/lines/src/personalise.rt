// A token made anew.
ghost use Rattle.std.specs.Prelude.{◌≡◌};
ghost use Rattle.desk_token.specs.Moves.{personalised_of, Made};

use buffers::Sheet;
use desk_token::Desk;
use status::Unfit;
use token::state::Token;
use wording::intake::taken;
use wording::personalisation::read_personalisation;

// The personalisation laid on the desk, and how that is answered.
fn answered(desk: Desk, p: Result<Token, Unfit>, out: &mut Sheet) -> Desk
    ensures { result ≡ personalised_of desk p }
{
    taken(out, p);
    desk.personalised(p)
}

pub(crate) fn personalise(desk: Desk, line: &[u8], out: &mut Sheet) -> Desk
    ensures { Made desk result }
{
    let Some(x) = read_personalisation(line) else {
        return desk;
    };
    match x.previous {
        Some(previous) => answered(desk, Token::with_two(x.newest, previous, x.today), out),
        None => answered(desk, Token::with_one(x.newest, x.today), out),
    }
}
