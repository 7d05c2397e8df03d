// Values as the desk writes them, each after its label.
use buffers::Sheet;
use days::Day;
use digits::hex::put_hex;
use digits::number::{Radix, put_decimal, put_digits};
use names::Name;
use rights::Rights;

pub(crate) fn number(out: &mut Sheet, label: &[u8], n: u64) {
    out.put(label);
    put_decimal(out, n)
}

// YYMMDD.
pub(crate) fn day(out: &mut Sheet, label: &[u8], d: Day) {
    out.put(label);
    put_digits(out, d.0 as u64, Radix::Ten, 6)
}

// Ten hex digits.
pub(crate) fn rights(out: &mut Sheet, label: &[u8], r: Rights) {
    out.put(label);
    put_digits(out, r.0, Radix::Sixteen, 10)
}

// A name, or none.
pub(crate) fn name(out: &mut Sheet, label: &[u8], held: Option<Name>) {
    out.put(label);
    match held {
        Some(n) => put_hex(out, n.bytes()),
        None => out.put(b"none"),
    }
}
