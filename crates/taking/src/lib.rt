// Objects that the data of several commands share, each found at the start of the bytes with a content that fits.
#![tactic(auto)]

ghost use Rattle.std.specs.Prelude.{◌≡◌, false};
ghost use Rattle.std.specs.Fn.{FnReturnsAt};
ghost use Rattle.names.specs.Names.{is_name};
ghost use Rattle.taking.specs.Taking.{fitted, last_of, is_all, sized, holds};

use names::is_name;
use objects::Content;
use strings::same;

// An object of this tag, with no objects in it and a content that passes the test.
fn fitted<F: Fn(&[u8]) -> bool>(s: &[u8], tag: u16, test: F) -> Option<Content>
    requires { F.IsAlwaysCallable test }
    ensures { (fits : _) → ((c : _) (b : _) → FnReturnsAt F.Fn test c b → b ≡ fits c) → result ≡ fitted tag false fits s.now }
{
    let found = objects::find(s, tag, false)?;
    if test(&s[found.start..found.end]) {
        Some(found)
    } else {
        None
    }
}

// 80 with this identifier.
pub fn identified(s: &[u8], id: &[u8]) -> Option<Content>
    ensures { result ≡ fitted 0x80 false (is_all id.now) s.now }
{
    fitted(s, 0x80, |c| same(c, id))
}

// 83 with a name.
pub fn named(s: &[u8]) -> Option<Content>
    ensures { result ≡ fitted 0x83 false is_name s.now }
{
    fitted(s, 0x83, is_name)
}

// An object of this tag with so many bytes.
pub fn sized(s: &[u8], tag: u16, least: usize, most: usize) -> Option<Content>
    ensures { result ≡ fitted tag false (sized least most) s.now }
{
    fitted(s, tag, |c| (least..=most).contains(&c.len()))
}

// An object found, if it ends where the bytes end.
pub fn last(f: Option<Content>, stop: usize) -> Option<Content>
    ensures { result ≡ last_of stop f }
{
    f.filter(|found| found.end == stop)
}

// Whether an object of this tag with so many bytes is all there is.
pub fn holds(s: &[u8], tag: u16, least: usize, most: usize) -> bool
    ensures { result ≡ holds tag least most s.now }
{
    last(sized(s, tag, least, most), s.len()).is_some()
}
