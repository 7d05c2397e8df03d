// Certificates, each by its name, with what was read of it, or 6A80; and the truncations of one.
use super::show::body;
use bodies::read_body;
use digits::hex::read_hex;
use feeding::rest;
use std::io;
use std::io::Write;
use text::front;
use wording::BYTES;
use words::{part, word};

// Where the name begins, after `certificate`.
const NAME: usize = 12;

// The bytes that the hex writes, none where it is no hex.
fn bytes<'a>(out: &'a mut [u8], hex: &[u8]) -> &'a [u8] {
    let n = read_hex(out, hex).unwrap_or(0);
    front(out, n)
}

// `certificate NAME=HEX`
pub fn certificate<W: Write>(to: &mut W, line: &[u8]) -> io::Result<()> {
    let mut work = [0u8; BYTES];
    let s = bytes(&mut work, part(line, 1, b'='));
    body(to, rest(part(line, 0, b'='), NAME), s)
}

// How many of the truncations of a body are refused.
fn truncations(s: &[u8]) -> usize {
    (0..s.len())
        .filter(|n| read_body(front(s, *n)).is_err())
        .count()
}

// `truncations HEX`
pub fn truncated<W: Write>(to: &mut W, line: &[u8]) -> io::Result<()> {
    let mut work = [0u8; BYTES];
    let s = bytes(&mut work, word(line, 1));
    writeln!(to, "truncations refused {} of {}", truncations(s), s.len())
}
