// Parts of a text: up to a byte, past a place, the first bytes.
#![tactic(auto)]

ghost use Rattle.std.specs.Prelude.{◌≡◌, ◌+◌, min, take};
ghost use Rattle.text.specs.Find.{before, place_of};

// How many bytes stand before the first b.
fn before(s: &[u8], b: u8) -> usize
    ensures { result ≡ before b s.now }
{
    s.iter().position(|c| *c == b).unwrap_or(s.len())
}

// The place of the first b from a place on, or the end: no Option, since what comes before b ends there all the same.
pub fn find(s: &[u8], from: usize, b: u8) -> usize
    ensures { result ≡ place_of s.now from b }
{
    let start = from.min(s.len());
    start + before(&s[start..], b)
}

// The place after a place of a string of n bytes, or the end.
pub fn past(at: usize, n: usize) -> usize
    ensures { result ≡ min (at + 1) n }
{
    at.saturating_add(1).min(n)
}

// The first n bytes, or all.
pub fn front(s: &[u8], n: usize) -> &[u8]
    ensures { result.now ≡ take n s.now }
{
    &s[..n.min(s.len())]
}
