// Reads nested BER-TLV data objects: the header of one, a list of them, and one with an expected tag.
#![tactic(auto)]

ghost use Rattle.std.specs.Prelude.{◌≡◌};
ghost use Rattle.objects.specs.Objects.{tag_of, len_of, header_of, object, objects, within, within_one, objects_in, found_in};

// The tag at the start of a slice: its one or two bytes as a number, whether objects are nested, and its size.
#[derive(Clone, Copy, PartialEq, Eq)]
pub struct Label {
    pub tag: u16,
    pub nests: bool,
    pub size: usize,
}

// The length at the start of a slice, and its size.
#[derive(Clone, Copy, PartialEq, Eq)]
pub struct Extent {
    pub len: usize,
    pub size: usize,
}

// The header of an object whose content is all there, from start up to end (two places, as the definitions have them; a Range is no
// `Copy`).
#[derive(Clone, Copy, PartialEq, Eq)]
pub struct Header {
    pub tag: u16,
    pub nests: bool,
    pub start: usize,
    pub end: usize,
}

// The object at the start of a slice: its end, and how many objects it is, itself and those in it.
#[derive(Clone, Copy, PartialEq, Eq)]
pub struct Object {
    pub end: usize,
    pub count: usize,
}

// The content of an object with an expected tag, from start up to end.
#[derive(Clone, Copy, PartialEq, Eq)]
pub struct Content {
    pub start: usize,
    pub end: usize,
}

#[inline]
fn tag_at(s: &[u8]) -> Option<Label>
    ensures { result ≡ tag_of s.now }
{
    let [first, more @ ..] = s else {
        return None;
    };
    let a = *first as u16;
    let nests = a / 0x20 % 2 == 1;
    if a % 0x20 != 0x1F {
        return Some(Label {
            tag: a,
            nests,
            size: 1,
        });
    }
    let [b, ..] = more else {
        return None;
    };
    if !(0x1F..=0x7F).contains(b) {
        return None;
    }
    Some(Label {
        tag: u16::from_be_bytes([*first, *b]),
        nests,
        size: 2,
    })
}

#[inline]
fn len_at(s: &[u8]) -> Option<Extent>
    ensures { result ≡ len_of s.now }
{
    match s {
        [a @ 0..=0x7F, ..] => Some(Extent {
            len: *a as usize,
            size: 1,
        }),
        [0x81, b @ 0x80.., ..] => Some(Extent {
            len: *b as usize,
            size: 2,
        }),
        [0x82, b, c, ..] => {
            let len = u16::from_be_bytes([*b, *c]) as usize;
            if len < 256 {
                return None;
            }
            Some(Extent { len, size: 3 })
        }
        _ => None,
    }
}

#[inline]
fn header_at(s: &[u8]) -> Option<Header>
    ensures { result ≡ header_of s.now }
{
    let Label { tag, nests, size } = tag_at(s)?;
    let Extent { len, size: more } = len_at(&s[size..])?;
    let start = size + more;
    if s.len() - start < len {
        return None;
    }
    Some(Header {
        tag,
        nests,
        start,
        end: start + len,
    })
}

// The object at the start of s, with so many levels of nests below it, at the cost of at most left objects.
#[cycle(read_list_read_object)]
fn read_object(s: &[u8], below: usize, left: usize) -> Option<Object>
    ensures { result ≡ within_one left (object below s.now) }
{
    if left == 0 {
        return None;
    }
    let Header {
        nests,
        start,
        end,
        ..
    } = header_at(s)?;
    if !nests {
        return Some(Object { end, count: 1 });
    }
    if below == 0 {
        return None;
    }
    let n = read_list(&s[start..end], below - 1, left - 1)?;
    Some(Object { end, count: n + 1 })
}

// The objects of a list, with so many levels of nests below it, at the cost of at most left objects. It calls itself on what is left, as
// its definition does.
#[cycle(read_list_read_object)]
pub fn read_list(s: &[u8], below: usize, left: usize) -> Option<usize>
    ensures { result ≡ within left (objects below s.now) }
{
    if s.is_empty() {
        return Some(0);
    }
    let Object { end, count } = read_object(s, below, left)?;
    let n = read_list(&s[end..], below, left - count)?;
    Some(count + n)
}

// At most so many objects in one reading, and lists to this depth, the top one at depth 1.
pub const ALLOWANCE: usize = 64;

pub const DEPTH: usize = 8;

// How many objects a slice holds, nested ones too.
pub fn read_objects(s: &[u8]) -> Option<usize>
    ensures { result ≡ objects_in s.now }
{
    read_list(s, DEPTH - 1, ALLOWANCE)
}

// Where the content of the object at the start of s lies, if it has this tag, and nests objects or not. What is left of s starts at end.
#[inline]
pub fn find(s: &[u8], tag: u16, nests: bool) -> Option<Content>
    ensures { result ≡ found_in tag nests s.now }
{
    let Header {
        tag: t,
        nests: n,
        start,
        end,
    } = header_at(s)?;
    if t == tag && n == nests {
        Some(Content { start, end })
    } else {
        None
    }
}
