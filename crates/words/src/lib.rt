// The words of a line, and what a line is.
#![tactic(auto)]

ghost use Rattle.std.specs.Prelude.{◌≡◌};
ghost use Rattle.words.specs.Words.{part_of, word_at, occurrences};
ghost use Rattle.words.specs.Verbs.{about_token, if_held, act_of, named_by, verb_of};

use strings::same;

// The longest line.
pub const LINE: usize = 8192;

// A line by its first word and whether there is a token that it is about.
#[derive(Clone, Copy, PartialEq, Eq)]
pub enum Verb {
    Silent,
    Overlong,
    Unknown,
    NoToken,
    Personalise,
    Reset,
    Send,
    Want,
    Read,
    Body,
    State,
}

// What a line does with the token: only three kinds of line change anything.
#[derive(Clone, Copy, PartialEq, Eq)]
pub enum Act {
    Personalises,
    Sends,
    Resets,
    Tells,
}

// Part k, counted from 0, of a string that is parted by b; empty where there is none.
pub fn part(s: &[u8], k: usize, b: u8) -> &[u8]
    ensures { result.now ≡ part_of b k s.now }
{
    s.split(|c| *c == b).nth(k).unwrap_or(&[])
}

// Word k of a line, counted from 0; empty where there is none, as no word of a good line is.
pub fn word(line: &[u8], k: usize) -> &[u8]
    ensures { result.now ≡ word_at k line.now }
{
    part(line, k, b' ')
}

// How often a byte stands in a string; a line has one word more than spaces.
pub fn count(s: &[u8], b: u8) -> usize
    ensures { result ≡ occurrences b s.now }
{
    let mut n = 0;
    for c in s {
        n += (*c == b) as usize;
    }
    n
}

// A line about the token. A pattern `b"reset"` tests byte by byte, and its ways out have no names that a proof could keep.
fn about(w: &[u8]) -> Verb
    ensures { result ≡ about_token w.now }
{
    match w {
        _ if same(w, b"reset") => Verb::Reset,
        _ if same(w, b"send") => Verb::Send,
        _ if same(w, b"want") => Verb::Want,
        _ if same(w, b"read") => Verb::Read,
        _ if same(w, b"state") => Verb::State,
        _ => Verb::Unknown,
    }
}

impl Verb {
    // Without a token no line about one is answered.
    fn if_held(self, held: bool) -> Self
        ensures { result ≡ if_held held self }
    {
        match self {
            Verb::Reset | Verb::Send | Verb::Want | Verb::Read | Verb::State if !held =>
                Verb::NoToken,
            _ => self,
        }
    }

    pub fn act(self) -> Act
        ensures { result ≡ act_of self }
    {
        match self {
            Verb::Personalise => Act::Personalises,
            Verb::Send => Act::Sends,
            Verb::Reset => Act::Resets,
            // No other line changes anything.
            _ => Act::Tells,
        }
    }
}

// As `about`: guards, not patterns.
fn named(w: &[u8], held: bool) -> Verb
    ensures { result ≡ named_by w.now held }
{
    match w {
        _ if same(w, b"personalise") => Verb::Personalise,
        _ if same(w, b"body") => Verb::Body,
        _ => about(w).if_held(held),
    }
}

// What a line is.
pub fn verb_of(line: &[u8], held: bool) -> Verb
    ensures { result ≡ verb_of line.now held }
{
    if LINE < line.len() {
        return Verb::Overlong;
    }
    match line {
        [] => Verb::Silent,
        [b'#', ..] => Verb::Silent,
        _ => named(word(line, 0), held),
    }
}
