// The objects that stand inside a reply's 7C.
ghost use Rattle.std.specs.Prelude.{◌≡◌, ◌≤◌, ◌+◌, length};
ghost use Rattle.buffers.specs.Laid.{Laid};
ghost use Rattle.headers.specs.Encode.{object};
ghost use Rattle.reply.specs.Parts.{parts_bytes};
ghost use Rattle.reply.specs.Reply.{room};

use buffers::Sheet;
use headers::{object_size, put_header, put_object};

// An object's tag and content.
#[derive(Clone, Copy)]
pub(crate) struct Part<'a>(pub u16, pub &'a [u8]);

// How long the objects are, one after the other.
#[inline(always)]
fn size_of(parts: &[Part]) -> u16
    requires { length (parts_bytes parts.now) ≤ room }
    ensures { result ≡ length (parts_bytes parts.now) }
{
    let mut size = 0;
    for part in parts {
        size += object_size(part.0, part.1.len() as u16);
    }
    size as u16
}

// 7C holding these objects.
#[inline(always)]
pub(crate) fn put_nest(sheet: &mut Sheet, parts: &[Part])
    requires short { length (parts_bytes parts.now) ≤ room }
    requires fits { sheet.old.at + length (object 0x7C (parts_bytes parts.now)) ≤ length sheet.old.out.now }
    ensures { Laid (object 0x7C (parts_bytes parts.now)) sheet.old sheet.new }
{
    put_header(sheet, 0x7C, size_of(parts));
    for part in parts {
        put_object(sheet, part.0, part.1);
    }
}
