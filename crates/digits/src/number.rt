// Numbers by their digits, in base ten and sixteen.
ghost use Rattle.std.specs.Prelude.{◌≡◌, ◌+◌, ◌*◌, ◌≤◌, ◌<◌, length};
ghost use Rattle.buffers.specs.Laid.{Laid};
ghost use Rattle.digits.specs.Digits.{glyph as Digits·glyph, worth as Digits·worth, is_digit, base_of, digits, places as Digits·places, decimal, grown, number_of};

use buffers::Sheet;

#[derive(Clone, Copy, PartialEq, Eq)]
pub enum Radix {
    Ten = 10,
    Sixteen = 16,
}

impl Radix {
    fn base(self) -> u64
        ensures { result ≡ base_of self }
    {
        self as u64
    }
}

// The character of a digit, upper case.
#[tactic(auto, unfolding(crate::specs::Digits::glyph))]
pub(crate) fn glyph(d: u8) -> u8
    requires { d < 16 }
    ensures { result ≡ Digits·glyph d }
{
    if d < 10 { b'0' + d } else { b'A' + (d - 10) }
}

// What a character is worth as a digit, in either case; 0 if it is none.
#[tactic(auto, unfolding(crate::specs::Digits::worth))]
pub(crate) fn worth(c: u8) -> u8
    ensures { (result < 16) × (result ≡ Digits·worth c) }
{
    match c {
        b'0'..=b'9' => c - b'0',
        b'A'..=b'F' => c - b'A' + 10,
        b'a'..=b'f' => c - b'a' + 10,
        _ => 0,
    }
}

// Whether a character is a digit of a base.
#[tactic(auto, unfolding(crate::specs::Digits::is_digit))]
pub(crate) fn is_digit(c: u8, base: u64) -> bool
    ensures { result ≡ is_digit base c }
{
    c.is_ascii_hexdigit() && (worth(c) as u64) < base
}

// The last so many digits of n; each place is indexed, since they are written from the last one back.
pub fn put_digits(sheet: &mut Sheet, n: u64, radix: Radix, width: usize)
    ensures { Laid (digits (base_of radix) width n) sheet.old sheet.new }
{
    if sheet.has_room(width) {
        let base = radix.base();
        let mut rest = n;
        for i in (0..width).rev() {
            sheet.out[sheet.at + i] = glyph((rest % base) as u8);
            rest /= base;
        }
        sheet.at += width;
    }
}

// How many digits a number takes in base ten, if they are at most one more than `most`. It recurs as its definition does.
fn places(n: u64, most: usize) -> usize
    requires { most ≤ 19 }
    ensures { (result ≤ most + 1) × (result ≡ Digits·places most n) }
{
    if most == 0 || n < 10 {
        1
    } else {
        1 + places(n / 10, most - 1)
    }
}

// A number in decimal, with no zeros before it.
#[tactic(auto, unfolding(crate::specs::Digits::decimal))]
pub fn put_decimal(sheet: &mut Sheet, n: u64)
    ensures { Laid (decimal n) sheet.old sheet.new }
{
    put_digits(sheet, n, Radix::Ten, places(n, 19));
}

// A number with one digit more, if it is no more than a u64 holds.
#[tactic(auto, unfolding(crate::specs::Digits::grown))]
fn grown(n: u64, base: u64, d: u64) -> Option<u64>
    ensures { result ≡ grown (n * base + d) }
{
    n.checked_mul(base)?.checked_add(d)
}

// The number that a word writes, if it is one or more digits and no more than a u64 holds.
pub fn read_number(s: &[u8], radix: Radix) -> Option<u64>
    ensures { result ≡ number_of (base_of radix) s.now }
{
    if s.is_empty() {
        return None;
    }
    let base = radix.base();
    let mut n = 0;
    for c in s {
        if !is_digit(*c, base) {
            return None;
        }
        n = grown(n, base, worth(*c) as u64)?;
    }
    Some(n)
}
