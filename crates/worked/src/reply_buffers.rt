// The reply buffer: nothing in a short one; else the reply, and after it what stood there.
use plans::Note;
use std::io;
use std::io::Write;
use token::state::Token;
use wording::send::no_result;

// The CAN chosen, into a buffer of AA; how many bytes the reply has, and how many AA it left.
fn chosen<W: Write>(to: &mut W, t: Token, out: &mut [u8]) -> io::Result<()> {
    let can = b"\x00\x22\xc1\xa4\x0f\x80\x0a\x04\x00\x7f\x00\x07\x02\x02\x04\x02\x02\x83\x01\x02";
    let r = t.step(can, Note::Plain, no_result(), b"", b"", out);
    let kept = out.iter().filter(|b| **b == 0xAA).count();
    let size = out.len();
    writeln!(
        to,
        "choose the CAN, a buffer of {size}: {} bytes, {kept} kept",
        r.len
    )
}

// A token that is reset takes the choice.
pub fn section<W: Write>(to: &mut W, token: Option<Token>) -> io::Result<()> {
    let t = token.unwrap_or(Token::none()).reset();
    chosen(to, t, &mut [0xAAu8; 257])?;
    chosen(to, t, &mut [0xAAu8; 258])
}
