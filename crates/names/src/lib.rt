// Names of certificate holders.
#![tactic(auto)]

ghost use Rattle.std.specs.Prelude.{◌≡◌, ◌≤◌, length, take, drop};
ghost use Rattle.strings.specs.Bytes.{eqbs};
ghost use Rattle.names.specs.Names.{is_name, name_of, no_name, name_bytes, name_fits, same_name};

use strings::{Class, Kept, all, clip, same};

// The places of a name.
const PLACES: usize = 16;

// A name's bytes; what stands after them is never judged. A type of its own, so that no key passes for a name.
#[derive(Clone, Copy)]
pub struct Name(pub Kept<PLACES>);

// The names that a reply shows: the first, and the second where there are both. Whose they are, `trust` says.
#[derive(Clone, Copy)]
pub struct Listed {
    pub first: Name,
    pub second: Option<Name>,
}

// Whether a string is a name.
#[tactic(auto, using(laws::proofs::Lists::from), unfolding(crate::specs::Names::is_name))]
pub fn is_name(s: &[u8]) -> bool
    ensures { result ≡ is_name s.now }
{
    let n = s.len();
    8 <= n
        && n <= Name::MOST
        && all(Class::Letter, &s[..2])
        && all(Class::Latin, &s[2..n - 5])
        && all(Class::Serial, &s[n - 5..])
}

// Whether two arrays hold the same bytes in the eight places from this one on.
fn eight_alike(p: &[u8; PLACES], q: &[u8; PLACES], at: usize) -> bool
    requires { at ≤ 8 }
    ensures { result ≡ eqbs (take 8 (drop at p.now)) (take 8 (drop at q.now)) }
{
    let mut equal = true;
    // it does not stop where two differ: without a branch the eight become one comparison
    for i in 0..8 {
        equal = equal & (p[at + i] == q[at + i]);
    }
    equal
}

impl Name {
    pub const MOST: usize = PLACES;

    #[tactic(auto, unfolding(crate::specs::Names::no_name))]
    pub fn none() -> Self
        ensures { result ≡ no_name }
    {
        Name(Kept::none())
    }

    // A string kept as a name; what goes past the last place is cut.
    #[tactic(auto, unfolding(crate::specs::Names::name_of))]
    pub fn of(s: &[u8]) -> Self
        ensures { result ≡ name_of s.now }
    {
        Name(Kept::of(s))
    }

    // The name's own bytes.
    pub fn bytes(&self) -> &[u8]
        ensures { result.now ≡ name_bytes self.now }
    {
        self.0.bytes()
    }

    // Whether two names are the same: the same bytes, and as many. It is not derived, since what stands after a stored length is not
    // judged.
    pub fn same(self, other: Name) -> bool
        ensures { result ≡ same_name self other }
    {
        let p = &self.0.bytes;
        let m = clip(self.0.len, Name::MOST);
        let q = &other.0.bytes;
        let n = clip(other.0.len, Name::MOST);
        if m != n {
            return false;
        }
        // no name is so short, but a stored value may be
        if m < 8 {
            return same(&p[..m], &q[..n]);
        }
        // the first eight bytes and the last eight: of at most sixteen none lies between
        let first = eight_alike(p, q, 0);
        let last = eight_alike(p, q, m - 8);
        first & last
    }

    // Whether a stored name is one.
    #[tactic(auto, unfolding(crate::specs::Names::name_fits))]
    pub fn fits(self) -> bool
        ensures { result ≡ name_fits self }
    {
        self.0.len <= Name::MOST && is_name(self.bytes())
    }
}
