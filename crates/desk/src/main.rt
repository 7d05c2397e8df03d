// A desk for trying a token by hand: a line from standard input, its answer to standard output.
#![tactic(auto)]

use desk_token::Desk;
use lines::answer;
use lines::talk::each_line;
use std::io;
use std::io::Write;
use text::front;
use wording::ANSWER;

// A line, and its answer with a line feed, if there is an answer.
fn said<W: Write>(to: &mut W, desk: Desk, line: &[u8]) -> io::Result<Desk> {
    let mut out = [0u8; ANSWER];
    let t = answer(desk, line, &mut out);
    if 0 < t.len {
        to.write_all(front(&out, t.len))?;
        to.write_all(b"\n")?;
    }
    Ok(t.desk)
}

fn main(rt: HostRuntime) -> io::Result<()> {
    let mut to = rt.stdout();
    each_line(&mut rt.stdin(), |desk, line| said(&mut to, desk, line))?;
    Ok(())
}
