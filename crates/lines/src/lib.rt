// The desk's language: a line about a token, and its answer.
#![tactic(auto)]

ghost use Rattle.std.specs.Prelude.{◌≤◌, length, ◌≡◌, is_some};
ghost use Rattle.words.specs.Verbs.{verb_of, act_of};
ghost use Rattle.lines.specs.Turns.{reset_by, Turned};

use buffers::Sheet;
use desk_token::{Desk, Turn};
use token::state::Token;
use wording::body::body;
use wording::expected::finished;
use wording::intake::ok;
use wording::state::{KeptOverReset, state};
use words::{Act, Verb, count, verb_of};

mod asked;
mod personalise;
mod send;
pub mod talk;

fn reset(desk: Desk, line: &[u8], out: &mut Sheet) -> Desk
    ensures { result ≡ reset_by desk line.now }
{
    if count(line, b' ') != 0 {
        return desk;
    }
    ok(out);
    desk.reset()
}

// What a token holds.
fn shown(token: Token, line: &[u8], out: &mut Sheet) -> Option<()> {
    let kept = KeptOverReset {
        pin: token.pin,
        active: token.active,
        puk: token.puk,
        today: token.today,
        points: token.points,
    };
    state(line, out, kept, token.session)
}

// The answer to a line that changes nothing; nothing, and None, where it is not as it should be.
fn told(token: Option<Token>, verb: Verb, line: &[u8], out: &mut Sheet) -> Option<()> {
    match verb {
        Verb::Want => asked::want(token?, line, out),
        Verb::Read => asked::read(token?, line, out),
        Verb::Body => body(line, out),
        Verb::State => shown(token?, line, out),
        _ => None,
    }
}

// A line that is as it should be is carried out; no other is answered here.
fn carried(desk: Desk, verb: Verb, line: &[u8], out: &mut Sheet) -> Desk
    ensures { Turned desk line.now result (act_of verb) }
{
    match verb.act() {
        Act::Personalises => personalise::personalise(desk, line, out),
        Act::Sends => send::send(desk, line, out),
        Act::Resets => reset(desk, line, out),
        Act::Tells => {
            // what is told is on the sheet; of what is not, `finished` says what was expected
            let _ = told(desk.token, verb, line, out);
            desk
        }
    }
}

// Answers a line, which has no line feed; the answer has none either.
pub fn answer(desk: Desk, line: &[u8], out: &mut [u8]) -> Turn
    ensures turned { Turned desk line.now result.desk (act_of (verb_of line.now (is_some desk.token))) }
    ensures len_in_bounds { result.len ≤ length out.old }
{
    let verb = verb_of(line, desk.token.is_some());
    let room = out.len();
    let mut sheet = Sheet::new(out);
    let next = carried(desk, verb, line, &mut sheet);
    let len = finished(&mut sheet, verb);
    Turn {
        desk: next,
        len: len.min(room),
    }
}
