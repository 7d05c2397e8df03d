// The body of a certificate, 7F4E: one pass over its objects, each field taken as it passes.
#![tactic(auto)]

ghost use Rattle.std.specs.Prelude.{◌≡◌, ◌+◌, ◌≤◌, Some};
ghost use Rattle.objects.specs.Objects.{allowance};
ghost use Rattle.objects.specs.Chain.{counted};
ghost use Rattle.bodies.specs.Body.{unread, read, named, is_signed, key_objects, body_of, signed_of, version_then, issuer_then, key_then, own_then, rights_then, first_then, last_then, ext_then, At, Reads, TookBy};

use certificate::Certificate;
use days::{Day, day_of};
use names::{Name, is_name};
use objects::Content;
use rights::{Rights, rights_of};
use status::Unfit;

// Where an object stands, from its first byte up to its end.
#[derive(Clone, Copy, PartialEq, Eq)]
pub struct Place {
    pub start: usize,
    pub end: usize,
}

// Of a key that was not read yet.
const NOWHERE: Place = Place { start: 0, end: 0 };

// What a body states: its issuer, its holder's name, rights and days (the key number comes with the verdict), where its public
// key and its extension stand, and how many objects it is.
#[derive(Clone, Copy)]
pub struct Body {
    pub issuer: Name,
    pub certificate: Certificate,
    pub key: Place,
    pub ext: Option<Place>,
    pub count: usize,
}

// 06 and the mechanism of terminal authentication.
pub const MECHANISM: [u8; 12] = [6, 10, 4, 0, 0x7F, 0, 7, 2, 2, 2, 2, 3];

// The longest signature.
pub const SIGNATURE: usize = 256;

// The objects of a public key, at most so many.
fn key_objects(s: &[u8], left: usize) -> Option<usize>
    requires { (1 ≤ left) × (left ≤ allowance) }
    ensures { result ≡ key_objects left s.now }
{
    let rest = s.strip_prefix(&MECHANISM)?;
    let n = objects::read_list(rest, objects::DEPTH - 3, left - 1)?;
    Some(n + 1)
}

// The body of the certificate that s is.
pub fn read_body(s: &[u8]) -> Result<Body, Unfit>
    ensures { result ≡ body_of s.now }
{
    let Content { start, end } = objects::find(s, 0x7F4E, true).ok_or(Unfit)?;
    if end != s.len() {
        return Err(Unfit);
    }
    from_version(Cursor {
        left: &s[start..end],
        stop: end,
        used: 1,
    })
}

// Whether s is a signature, alone.
#[tactic(auto, using(std::proofs::lemmas::Bool::Decides::nat_tests), unfolding(crate::specs::Body::is_signed))]
fn signed(s: &[u8]) -> bool
    ensures { result ≡ is_signed s.now }
{
    let Some(Content { start, end }) = objects::find(s, 0x5F37, false) else {
        return false;
    };
    (1..=SIGNATURE).contains(&(end - start)) && end == s.len()
}

// The body of the certificate that s is, with its signature after it.
pub fn read_signed(s: &[u8]) -> Result<Body, Unfit>
    ensures { result ≡ signed_of s.now }
{
    let Content { start, end } = objects::find(s, 0x7F4E, true).ok_or(Unfit)?;
    if !signed(&s[end..]) {
        return Err(Unfit);
    }
    from_version(Cursor {
        left: &s[start..end],
        stop: end,
        used: 2,
    })
}

// ---- the fields, a function each

// What is left of a body's bytes, where the body ends in the whole, and how many objects were read.
#[derive(Clone, Copy)]
struct Cursor<'a> {
    left: &'a [u8],
    stop: usize,
    used: usize,
}

// An object that was taken: its content, its place in the whole, and what stands after it.
#[derive(Clone, Copy)]
struct Taken<'a> {
    content: &'a [u8],
    place: Place,
    next: Cursor<'a>,
}

impl<'a> Cursor<'a> {
    // The object with this tag that stands here.
    #[inline]
    fn take(self, tag: u16, nests: bool) -> Result<Taken<'a>, Unfit>
        requires { At 1024 self }
        ensures { TookBy tag nests self.entry result }
    {
        let Content { start, end } = objects::find(self.left, tag, nests).ok_or(Unfit)?;
        let at = self.stop - self.left.len();
        Ok(Taken {
            content: &self.left[start..end],
            place: Place {
                start: at,
                end: at + end,
            },
            next: Cursor {
                left: &self.left[end..],
                used: self.used + 1,
                ..self
            },
        })
    }
}

// A name that the content of an object is.
fn named(s: &[u8]) -> Result<Name, Unfit>
    ensures { result ≡ named s.now }
{
    if !is_name(s) {
        return Err(Unfit);
    }
    Ok(Name::of(s))
}

fn from_version(at: Cursor<'_>) -> Result<Body, Unfit>
    requires { At 2 at }
    ensures { Reads at.entry version_then result }
{
    let object = at.take(0x5F29, false)?;
    let [0] = object.content else {
        return Err(Unfit);
    };
    from_issuer(object.next)
}

fn from_issuer(at: Cursor<'_>) -> Result<Body, Unfit>
    requires { At 3 at }
    ensures { Reads at.entry issuer_then result }
{
    let object = at.take(0x42, false)?;
    let issuer = named(object.content)?;
    from_key(
        object.next,
        Body {
            issuer,
            certificate: Certificate::none(),
            key: NOWHERE,
            ext: None,
            count: 0,
        },
    )
}

// Each of these takes the body as far as it was read.
fn from_key(at: Cursor<'_>, body: Body) -> Result<Body, Unfit>
    requires { At 4 at }
    ensures { Reads at.entry (λ stop. key_then stop body.issuer) result }
{
    let object = at.take(0x7F49, true)?;
    let n = key_objects(object.content, objects::ALLOWANCE - 1 - at.used).ok_or(Unfit)?;
    from_own(
        Cursor {
            used: object.next.used + n,
            ..object.next
        },
        Body {
            key: object.place,
            ..body
        },
    )
}

fn from_own(at: Cursor<'_>, body: Body) -> Result<Body, Unfit>
    requires { At allowance at }
    ensures { Reads at.entry (λ stop. own_then stop body.issuer body.key) result }
{
    let object = at.take(0x5F20, false)?;
    let name = named(object.content)?;
    let certificate = Certificate {
        name,
        ..body.certificate
    };
    from_rights(
        object.next,
        Body {
            certificate,
            ..body
        },
    )
}

fn from_rights(at: Cursor<'_>, body: Body) -> Result<Body, Unfit>
    requires { At (allowance + 1) at }
    ensures { Reads at.entry (λ stop. rights_then stop body.issuer body.key body.certificate.name) result }
{
    let object = at.take(0x7F4C, true)?;
    let rights = rights_of(object.content).ok_or(Unfit)?;
    let certificate = Certificate {
        rights,
        ..body.certificate
    };
    // a template of rights holds two objects
    let next = Cursor {
        used: object.next.used + 2,
        ..object.next
    };
    from_first(
        next,
        Body {
            certificate,
            ..body
        },
    )
}

fn from_first(at: Cursor<'_>, body: Body) -> Result<Body, Unfit>
    requires { At (allowance + 4) at }
    ensures { Reads at.entry (λ stop. first_then stop body.issuer body.key body.certificate.name body.certificate.rights) result }
{
    let object = at.take(0x5F25, false)?;
    let first = day_of(object.content).ok_or(Unfit)?;
    let certificate = Certificate {
        first,
        ..body.certificate
    };
    from_last(
        object.next,
        Body {
            certificate,
            ..body
        },
    )
}

fn from_last(at: Cursor<'_>, body: Body) -> Result<Body, Unfit>
    requires { At (allowance + 5) at }
    ensures { Reads at.entry (λ stop. last_then stop body.issuer body.key body.certificate.name body.certificate.rights body.certificate.first) result }
{
    let object = at.take(0x5F24, false)?;
    let last = day_of(object.content).ok_or(Unfit)?;
    if last.before(body.certificate.first) {
        return Err(Unfit);
    }
    let certificate = Certificate {
        last,
        ..body.certificate
    };
    from_ext(
        object.next,
        Body {
            certificate,
            ..body
        },
    )
}

fn from_ext(at: Cursor<'_>, body: Body) -> Result<Body, Unfit>
    requires { At (allowance + 6) at }
    ensures { Reads at.entry (λ stop. ext_then stop body.issuer body.key body.certificate.name body.certificate.rights body.certificate.first body.certificate.last) result }
{
    if objects::ALLOWANCE < at.used {
        return Err(Unfit);
    }
    if at.left.is_empty() {
        return whole(at.used, Body { ext: None, ..body });
    }
    let object = at.take(0x65, true)?;
    if !object.next.left.is_empty() {
        return Err(Unfit);
    }
    let n = objects::read_list(
        object.content,
        objects::DEPTH - 3,
        objects::ALLOWANCE - at.used,
    )
    .ok_or(Unfit)?;
    whole(
        object.next.used + n,
        Body {
            ext: Some(object.place),
            ..body
        },
    )
}

// A body of so many objects.
fn whole(count: usize, body: Body) -> Result<Body, Unfit>
    ensures { result ≡ counted unread count (Some 0) (read body.issuer body.key body.certificate.name body.certificate.rights body.certificate.first body.certificate.last body.ext) }
{
    if objects::ALLOWANCE < count {
        return Err(Unfit);
    }
    let certificate = Certificate {
        key: 0,
        ..body.certificate
    };
    Ok(Body {
        certificate,
        count,
        ..body
    })
}
