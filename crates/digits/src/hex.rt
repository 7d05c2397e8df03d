// Bytes in hex: two digits a byte, and `-` where there are none.
ghost use Rattle.std.specs.Prelude.{◌≡◌, ◌+◌, ◌*◌, ◌/◌, ◌≤◌, length};
ghost use Rattle.buffers.specs.Lay.{over};
ghost use Rattle.buffers.specs.Laid.{Laid};
ghost use Rattle.digits.specs.Digits.{is_digit, all_digits};
ghost use Rattle.digits.specs.Hex.{pairs, hex_of, bytes_of, is_hex, hex_read, hex_laid};

use super::number::{glyph, worth};
use buffers::Sheet;
use strings::same;

// Two digits for a byte: the buffer has just the room for them. A piece for each byte would ask for its room anew.
fn lay_pairs(out: &mut [u8], s: &[u8])
    requires { length out.old ≡ 2 * length s.now }
    ensures { out.new ≡ pairs s.now }
{
    for i in 0..s.len() {
        out[2 * i] = glyph(s[i] / 16);
        out[2 * i + 1] = glyph(s[i] % 16);
    }
}

// Bytes in upper-case hex, two digits a byte.
pub fn put_hex(sheet: &mut Sheet, s: &[u8])
    ensures { Laid (hex_of s.now) sheet.old sheet.new }
{
    if s.is_empty() {
        sheet.put(b"-");
    } else if sheet.has_room(2 * s.len()) {
        let end = sheet.at + 2 * s.len();
        lay_pairs(&mut sheet.out[sheet.at..end], s);
        sheet.at = end;
    }
}

// Whether a character is a digit of base sixteen; what it is worth need not be asked.
#[tactic(auto, using(crate::proofs::Digits::sixteen))]
fn is_hex_digit(c: u8) -> bool
    ensures { result ≡ is_digit 16 c }
{
    c.is_ascii_hexdigit()
}

// Whether a word is nothing but digits of base sixteen.
fn all_digits(s: &[u8]) -> bool
    ensures { result ≡ all_digits 16 s.now }
{
    s.iter().all(|c| is_hex_digit(*c))
}

// A byte for two digits: the buffer has room for them. Chunks of two would be slices, to be indexed all the same.
fn lay_bytes(out: &mut [u8], s: &[u8])
    requires { length s.now / 2 ≤ length out.old }
    ensures { out.new ≡ over 0 (bytes_of s.now) out.old }
{
    for i in 0..s.len() / 2 {
        out[i] = worth(s[2 * i]) * 16 + worth(s[2 * i + 1]);
    }
}

// Whether a word is hex: an even number of digits, or `-` for no bytes.
#[tactic(auto, unfolding(crate::specs::Hex::is_hex))]
fn is_hex(s: &[u8]) -> bool
    ensures { result ≡ is_hex s.now }
{
    same(s, b"-") || (!s.is_empty() && s.len() % 2 == 0 && all_digits(s))
}

// The bytes that a word writes in hex, from the buffer's start, if it is hex and they have room.
pub fn read_hex(out: &mut [u8], s: &[u8]) -> Option<usize>
    ensures { (result ≡ hex_read (length out.old) s.now) × (out.new ≡ over 0 (hex_laid (length out.old) s.now) out.old) }
{
    let n = s.len() / 2;
    if !is_hex(s) || out.len() < n {
        return None;
    }
    lay_bytes(out, s);
    Some(n)
}
