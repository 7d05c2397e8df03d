// The body of a certificate.
use super::intake::refused;
use super::stated::string;
use super::{BYTES, labelled};
use bodies::{Body, Place, read_body};
use buffers::Sheet;
use certificate::Certificate;
use names::Name;
use words::{count, word};

fn place(out: &mut Sheet, label: &[u8], p: Place) {
    labelled::number(out, label, p.start as u64);
    labelled::number(out, b"..", p.end as u64)
}

fn terms(out: &mut Sheet, issuer: Name, p: Certificate) {
    labelled::name(out, b"issuer=", Some(issuer));
    labelled::name(out, b" name=", Some(p.name));
    labelled::rights(out, b" rights=", p.rights);
    labelled::day(out, b" first=", p.first);
    labelled::day(out, b" last=", p.last)
}

fn fields(out: &mut Sheet, b: Body) {
    terms(out, b.issuer, b.certificate);
    place(out, b" key=", b.key);
    match b.ext {
        Some(p) => place(out, b" extension=", p),
        None => {
            out.put(b" extension=");
            out.put(b"none")
        }
    }
    labelled::number(out, b" objects=", b.count as u64)
}

// What a body states, or that it is not good; nothing, and None, where a word is not as it should be.
pub fn body(line: &[u8], out: &mut Sheet) -> Option<()> {
    let mut work = [0u8; BYTES];
    let s = string(word(line, 1), &mut work)?;
    if count(line, b' ') != 1 {
        return None;
    }
    match read_body(s) {
        Ok(b) => fields(out, b),
        Err(e) => refused(out, e),
    }
    Some(())
}
