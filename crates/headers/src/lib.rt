// Writes the bytes of data objects: tag, length, content. What has no room is not written.
#![tactic(auto)]

ghost use Rattle.std.specs.Prelude.{◌≡◌, ◌≤◌, length};
ghost use Rattle.buffers.specs.Laid.{Laid};
ghost use Rattle.headers.specs.Encode.{tag_bytes, length_bytes, header, size_of, object_of};

use buffers::Sheet;

// The least lengths that stand after 81 and after 82.
const AFTER_81: u16 = 128;

const AFTER_82: u16 = 256;

#[tactic(auto, unfolding(crate::specs::Encode::tag_bytes))]
#[inline(always)]
fn tag_size(tag: u16) -> usize
    ensures { (result ≤ 2) × (result ≡ length (tag_bytes tag)) }
{
    if tag < 256 { 1 } else { 2 }
}

// It asks what `put_length` asks again: how long a header is has to be known before anything is written.
#[tactic(auto, unfolding(crate::specs::Encode::length_bytes))]
#[inline(always)]
fn length_size(n: u16) -> usize
    ensures { (result ≤ 3) × (result ≡ length (length_bytes n)) }
{
    if n < AFTER_81 {
        1
    } else if n < AFTER_82 {
        2
    } else {
        3
    }
}

#[tactic(auto, unfolding(crate::specs::Encode::header))]
#[inline(always)]
fn header_size(tag: u16, n: u16) -> usize
    ensures { (result ≤ 5) × (result ≡ length (header tag n)) }
{
    tag_size(tag) + length_size(n)
}

// How long an object with n bytes of content is.
#[inline(always)]
pub fn object_size(tag: u16, n: u16) -> usize
    ensures { result ≡ size_of tag n }
{
    header_size(tag, n) + n as usize
}

#[tactic(auto, unfolding(crate::specs::Encode::tag_bytes))]
#[inline(always)]
fn put_tag(sheet: &mut Sheet, tag: u16)
    ensures { Laid (tag_bytes tag) sheet.old sheet.new }
{
    if tag < 256 {
        sheet.put(&[tag as u8]);
    } else {
        sheet.put(&tag.to_be_bytes());
    }
}

#[tactic(auto, unfolding(crate::specs::Encode::length_bytes))]
#[inline(always)]
fn put_length(sheet: &mut Sheet, n: u16)
    ensures { Laid (length_bytes n) sheet.old sheet.new }
{
    if n < AFTER_81 {
        sheet.put(&[n as u8]);
    } else if n < AFTER_82 {
        sheet.put(&[0x81, n as u8]);
    } else {
        let [high, low] = n.to_be_bytes();
        sheet.put(&[0x82, high, low]);
    }
}

// The tag, and the length of a content of n bytes.
#[tactic(auto, unfolding(crate::specs::Encode::header))]
#[inline(always)]
pub fn put_header(sheet: &mut Sheet, tag: u16, n: u16)
    ensures { Laid (header tag n) sheet.old sheet.new }
{
    if sheet.has_room(header_size(tag, n)) {
        put_tag(sheet, tag);
        put_length(sheet, n);
    }
}

// An object with this content, if a length says how long that is.
#[inline(always)]
pub fn put_object(sheet: &mut Sheet, tag: u16, src: &[u8])
    ensures { Laid (object_of tag src.now) sheet.old sheet.new }
{
    let Ok(n) = u16::try_from(src.len()) else {
        return;
    };
    if sheet.has_room(object_size(tag, n)) {
        put_header(sheet, tag, n);
        sheet.put(src);
    }
}
