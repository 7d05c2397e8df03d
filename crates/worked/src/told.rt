// A line of the script, told: what it shows, the line, its answer.
use super::certificates::{certificate, truncated};
use days::Day;
use desk_token::Desk;
use feeding::rest;
use lines::answer;
use std::io;
use std::io::Write;
use text::front;
use token::state::Token;
use wording::ANSWER;
use words::word;

// As much of a line as is shown.
const SHOWN: usize = 96;

fn shown<W: Write>(to: &mut W, line: &[u8]) -> io::Result<()> {
    to.write_all(b"> ")?;
    to.write_all(front(line, SHOWN))?;
    if SHOWN < line.len() {
        write!(to, ".. ({} characters)", line.len())?;
    }
    Ok(())
}

// What a comment says.
fn comment<W: Write>(to: &mut W, line: &[u8]) -> io::Result<()> {
    to.write_all(rest(line, 2))?;
    to.write_all(b"\n")
}

// `set WHAT`, a state that no line of the desk leads to: no use of the PUK left, an inactive PIN, a counter over its limit, a day
// that there is not, 29 February 2023.
fn set(token: Token, what: &[u8]) -> Token {
    let t = token.reset();
    match what {
        b"puk=0" => Token { puk: 0, ..t },
        b"active=no" => Token { active: false, ..t },
        b"pin=4" => Token { pin: 4, ..t },
        b"today=230229" => Token {
            today: Day(20230229),
            ..t
        },
        _ => t,
    }
}

// A line of the desk, and its answer.
fn said<W: Write>(to: &mut W, desk: Desk, line: &[u8]) -> io::Result<Desk> {
    shown(to, line)?;
    let mut out = [0u8; ANSWER];
    let t = answer(desk, line, &mut out);
    to.write_all(b"\n< ")?;
    to.write_all(front(&out, t.len))?;
    to.write_all(b"\n")?;
    Ok(t.desk)
}

// The desk once the line was told.
pub fn told<W: Write>(to: &mut W, desk: Desk, line: &[u8]) -> io::Result<Desk> {
    match word(line, 0) {
        b"#" => comment(to, line)?,
        b"certificate" => certificate(to, line)?,
        b"truncations" => truncated(to, line)?,
        b"set" => {
            let token = desk.token.unwrap_or(Token::none());
            return Ok(Desk {
                token: Some(set(token, word(line, 1))),
            });
        }
        _ => return said(to, desk, line),
    }
    Ok(desk)
}
