// The compressed key that a terminal announces.
#![tactic(auto)]

ghost use Rattle.std.specs.Prelude.{◌≡◌};
ghost use Rattle.keys.specs.Keys.{no_key, key_of, key_bytes, key_is, key_fits, key_stands};

use strings::Kept;

// The places of a key.
const PLACES: usize = 66;

// A key's bytes; what stands after them is never judged. No key where the length is 0: no Option, since a stored state is judged by
// `key_stands` and `key_fits`, which speak of the length.
#[derive(Clone, Copy)]
pub struct Key(pub Kept<PLACES>);

impl Key {
    pub const MOST: usize = PLACES;

    #[tactic(auto, unfolding(crate::specs::Keys::no_key))]
    pub fn none() -> Self
        ensures { result ≡ no_key }
    {
        Key(Kept::none())
    }

    // A string kept as a key; what goes past the last place is cut.
    #[tactic(auto, unfolding(crate::specs::Keys::key_of))]
    pub fn of(s: &[u8]) -> Self
        ensures { result ≡ key_of s.now }
    {
        Key(Kept::of(s))
    }

    // The key's own bytes.
    pub fn bytes(&self) -> &[u8]
        ensures { result.now ≡ key_bytes self.now }
    {
        self.0.bytes()
    }

    // Whether a string is this key, whole.
    #[tactic(auto, unfolding(crate::specs::Keys::key_is))]
    pub fn is(self, s: &[u8]) -> bool
        ensures { result ≡ key_is self s.now }
    {
        self.bytes() == s
    }

    // Whether the stored length is within its limit.
    #[tactic(auto, unfolding(crate::specs::Keys::key_fits))]
    pub fn fits(self) -> bool
        ensures { result ≡ key_fits self }
    {
        self.0.len <= Key::MOST
    }

    // Whether there is a key.
    #[tactic(auto, unfolding(crate::specs::Keys::key_stands))]
    pub fn stands(self) -> bool
        ensures { result ≡ key_stands self }
    {
        1 <= self.0.len
    }
}
