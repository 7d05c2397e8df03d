// A command sent, with its crypto result.
ghost use Rattle.desk_token.specs.Moves.{Stepped};

use buffers::Sheet;
use desk_token::Desk;
use reply::ROOM;
use text::front;
use wording::BYTES;
use wording::send::{Sent, read_sent, replied};

// One step with what the words state; the reply in hex. Without a token there is none.
fn step_of(desk: Desk, x: Sent, out: &mut Sheet) -> Desk
    ensures { Stepped desk result }
{
    let Some(token) = desk.token else {
        return desk;
    };
    let result = x.result(token.job(x.command, x.note));
    let mut reply = [0u8; ROOM];
    let t = desk.step(x.command, x.note, result, x.first, x.second, &mut reply);
    replied(out, front(&reply, t.len));
    t.desk
}

pub(crate) fn send(desk: Desk, line: &[u8], out: &mut Sheet) -> Desk
    ensures { Stepped desk result }
{
    let mut command = [0u8; BYTES];
    let mut first = [0u8; BYTES];
    let mut second = [0u8; BYTES];
    let Some(x) = read_sent(line, &mut command, &mut first, &mut second) else {
        return desk;
    };
    step_of(desk, x, out)
}
