// What a word states: a number, a string, a day, a name; None where it states none.
use days::Day;
use digits::hex::read_hex;
use digits::number::{Radix, read_number};
use names::Name;
use text::front;

// The number that a word of just so many digits writes.
pub(crate) fn fixed(w: &[u8], radix: Radix, width: usize) -> Option<u64> {
    if w.len() != width {
        return None;
    }
    read_number(w, radix)
}

// The bytes that a word writes, in a buffer that is lent for them.
pub(crate) fn string<'a>(w: &[u8], out: &'a mut [u8]) -> Option<&'a [u8]> {
    let n = read_hex(out, w)?;
    Some(front(out, n))
}

// The day that six digits YYMMDD are; whether there is such a day the token judges.
pub(crate) fn day(w: &[u8]) -> Option<Day> {
    let n = fixed(w, Radix::Ten, 6)?;
    Some(Day((20000000 + n % 1000000) as u32))
}

// A name; what is longer than any is none, which no token takes.
pub(crate) fn name(s: &[u8]) -> Name {
    if Name::MOST < s.len() {
        return Name::none();
    }
    Name::of(s)
}
