// Byte strings.
#![tactic(auto)]

ghost use Rattle.std.specs.Prelude.{◌≡◌, ◌%◌, ◌^◌, min, length};
ghost use Rattle.strings.specs.Bytes.{eqbs, belongs_to, all_of, number, copied_into};
ghost use Rattle.strings.specs.Kept.{kept_none, kept_of, kept_bytes};

// The longest string that a run step or the chip key exchanges.
pub const STRING: usize = 140;

// What a byte of a field may be.
#[derive(Clone, Copy, PartialEq, Eq)]
pub enum Class {
    // A-Z; 20..7E or A0..FF; 0-9 or A-Z; 0..9; 30..39
    Letter,
    Latin,
    Serial,
    Digit,
    Numeral,
}

// A string in N places; what stands after its bytes is never judged, so that no equality is derived.
#[derive(Clone, Copy)]
pub struct Kept<const N: usize> {
    pub bytes: [u8; N],
    pub len: usize,
}

impl<const N: usize> Kept<N> {
    pub fn none() -> Self
        ensures { result ≡ kept_none N }
    {
        Kept {
            bytes: [0; N],
            len: 0,
        }
    }

    // A string that is kept; what goes past the last place is cut.
    pub fn of(s: &[u8]) -> Self
        ensures { result ≡ kept_of N s.now }
    {
        let mut bytes = [0; N];
        let len = copy(&mut bytes, s);
        Kept { bytes, len }
    }

    // The bytes that are kept; of a stored length past the last place, all.
    pub fn bytes(&self) -> &[u8]
        ensures { result.now ≡ kept_bytes self.now }
    {
        &self.bytes[..clip(self.len, N)]
    }
}

// The same bytes, and as many. It is `==`, in the definitions' word: in a closure a plain `==` leaves a goal open.
pub fn same(a: &[u8], b: &[u8]) -> bool
    ensures { result ≡ eqbs a.now b.now }
{
    a == b
}

fn belongs(class: Class, b: u8) -> bool
    ensures { result ≡ belongs_to class b }
{
    match class {
        Class::Letter => matches!(b, 0x41..=0x5A),
        Class::Latin => matches!(b, 0x20..=0x7E | 0xA0..=0xFF),
        Class::Serial => matches!(b, 0x30..=0x39 | 0x41..=0x5A),
        Class::Digit => b <= 9,
        Class::Numeral => matches!(b, 0x30..=0x39),
    }
}

// Whether every byte is of the class.
pub fn all(class: Class, s: &[u8]) -> bool
    ensures { result ≡ all_of class s.now }
{
    s.iter().all(|b| belongs(class, *b))
}

// The number whose digits in a base are those of `first` and then these, cut to 64 bits.
pub fn number(base: u64, first: u64, s: &[u8]) -> u64
    ensures { result ≡ number base first s.now % 2 ^ 64 }
{
    let mut n = first;
    for b in s {
        n = n.wrapping_mul(base).wrapping_add(*b as u64);
    }
    n
}

// A stored length, cut to what its array holds.
pub fn clip(n: usize, most: usize) -> usize
    ensures { result ≡ min n most }
{
    n.min(most)
}

// A string copied to the start of an array, as far as there is room; how many bytes that was.
#[tactic(auto, using(laws::proofs::Lists::copied_all), unfolding(crate::specs::Bytes::copied_into))]
pub fn copy(out: &mut [u8], s: &[u8]) -> usize
    ensures { (result ≡ min (length s.now) (length out.old)) × (out.new ≡ copied_into out.old s.now) }
{
    let n = clip(s.len(), out.len());
    out[..n].copy_from_slice(&s[..n]);
    n
}
