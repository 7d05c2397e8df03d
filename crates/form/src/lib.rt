// The forms of ISO 7816-3.
#![tactic(auto)]

ghost use Rattle.std.specs.Prelude.{◌≡◌};
ghost use Rattle.form.specs.Form.{form_of, data_by, after, after_four, extended_of, bare, bytes_of, formed, pair_of};

// The bytes of a command, at most.
pub const COMMAND: usize = 1024;

// Where data stands, from start up to end (nowhere if both are 4), and Le.
#[derive(Clone, Copy, PartialEq, Eq)]
pub struct Form {
    pub start: usize,
    pub end: usize,
    pub le: Option<u16>,
}

// The number of the data's bytes, of one byte, or of two after 00.
#[derive(Clone, Copy, PartialEq, Eq)]
enum Lc {
    Short(u8),
    Extended(u16),
}

impl Lc {
    fn bytes(self) -> usize
        ensures { result ≡ bytes_of self }
    {
        match self {
            Lc::Short(n) => n as usize,
            Lc::Extended(n) => n as usize,
        }
    }

    // The form of these data with this Le.
    fn form(self, le: Option<u16>) -> Option<Form>
        ensures { result ≡ formed self le }
    {
        let start = match self {
            Lc::Short(_) => 5,
            Lc::Extended(_) => 7,
        };
        Some(Form {
            start,
            end: start + self.bytes(),
            le,
        })
    }
}

// Two bytes, highest first.
pub fn pair(a: u8, b: u8) -> u16
    ensures { result ≡ pair_of a b }
{
    u16::from_be_bytes([a, b])
}

// A form without data.
fn bare(le: Option<u16>) -> Option<Form>
    ensures { result ≡ bare le }
{
    Some(Form {
        start: 4,
        end: 4,
        le,
    })
}

// What follows the data: nothing, or an Le of as many bytes as their Lc has.
fn after(lc: Lc, s: &[u8]) -> Option<Form>
    ensures { result ≡ after lc s.now }
{
    match (lc, s) {
        (_, []) => lc.form(None),
        (Lc::Short(_), [e]) => lc.form(Some(*e as u16)),
        (Lc::Extended(_), [d, e]) => lc.form(Some(pair(*d, *e))),
        _ => None,
    }
}

// The data, then what follows them.
fn data_then(lc: Lc, s: &[u8]) -> Option<Form>
    ensures { result ≡ data_by lc s.now }
{
    after(lc, s.get(lc.bytes()..)?)
}

// What follows a fifth byte 00.
fn extended(s: &[u8]) -> Option<Form>
    ensures { result ≡ extended_of s.now }
{
    let [d, e, rest @ ..] = s else {
        return None;
    };
    let n = pair(*d, *e);
    match (n, rest) {
        (_, []) => bare(Some(n)),
        (0, _) => None,
        _ => data_then(Lc::Extended(n), rest),
    }
}

// What follows the four header bytes: nothing, Le, or a fifth byte with what follows.
fn after_header(s: &[u8]) -> Option<Form>
    ensures { result ≡ after_four s.now }
{
    match s {
        [] => bare(None),
        [le] => bare(Some(*le as u16)),
        [0, rest @ ..] => extended(rest),
        [lc, rest @ ..] => data_then(Lc::Short(*lc), rest),
    }
}

// The form by the number of bytes and the fifth.
pub fn form_of(s: &[u8]) -> Option<Form>
    ensures { result ≡ form_of s.now }
{
    match s {
        [_, _, _, _, rest @ ..] if s.len() <= COMMAND => after_header(rest),
        _ => None,
    }
}
