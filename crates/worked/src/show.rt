// Writes what was read as text.
use bodies::{Body, read_body};
use days::Day;
use names::Name;
use rights::Rights;
use status::Word;
use std::io;
use std::io::Write;

// YYYY-MM-DD.
fn day<W: Write>(to: &mut W, d: Day) -> io::Result<()> {
    write!(
        to,
        "{:04}-{:02}-{:02} ",
        d.0 / 10000,
        d.0 / 100 % 100,
        d.0 % 100
    )
}

// Ten digits.
fn rights<W: Write>(to: &mut W, r: Rights) -> io::Result<()> {
    write!(to, "{:010X} ", r.0)
}

fn name<W: Write>(to: &mut W, n: Name) -> io::Result<()> {
    to.write_all(n.bytes())?;
    to.write_all(b" ")
}

fn fields<W: Write>(to: &mut W, b: Body) -> io::Result<()> {
    to.write_all(b"read ")?;
    name(to, b.issuer)?;
    name(to, b.certificate.name)?;
    rights(to, b.certificate.rights)?;
    day(to, b.certificate.first)?;
    day(to, b.certificate.last)?;
    write!(to, "{}", b.count)
}

// A line: what the bytes are called, and what was read of them, or 6A80.
pub fn body<W: Write>(to: &mut W, called: &[u8], s: &[u8]) -> io::Result<()> {
    to.write_all(called)?;
    to.write_all(b" ")?;
    match read_body(s) {
        Ok(b) => fields(to, b)?,
        Err(_) => write!(to, "{:04X}", u16::from(Word::Data))?,
    }
    to.write_all(b"\n")
}
