// The bytes of a reply: the data of its layout, then the two bytes of its word.
#![tactic(auto)]

ghost use Rattle.std.specs.Prelude.{◌≡◌, ◌+◌, ◌≤◌, length};
ghost use Rattle.strings.specs.Bytes.{longest};
ghost use Rattle.buffers.specs.Lay.{Written};
ghost use Rattle.buffers.specs.Laid.{Laid};
ghost use Rattle.reply.specs.Reply.{room, data_of, silent, reply_of};

use buffers::Sheet;
use names::Listed;
use strings::STRING;

mod parts;

use parts::{Part, put_nest};

// The least room of a buffer that is written to.
pub const ROOM: usize = 258;

// The bytes of the chip key's nonce.
const NONCE: usize = 8;

// What a reply holds before its two word bytes.
#[derive(Clone, Copy)]
pub enum Layout {
    // Nothing, and no word either.
    Silent,
    // The word alone.
    Bare,
    // The first string as it is.
    Flat,
    // 7C holding one object of this tag with the first string.
    Nest(u16),
    // 7C holding 86 the first string, 87 the newest trust point's name, 88 the previous one's if there are both.
    Confirmed,
    // 7C holding 81 the first eight bytes of the first string and 82 the rest.
    Pair,
}

impl Layout {
    fn is_silent(self) -> bool
        ensures { result ≡ silent self }
    {
        matches!(self, Layout::Silent)
    }
}

// The data of a layout, at the start of a buffer with room for every reply: the word has room after it.
#[inline]
fn put_data(sheet: &mut Sheet, layout: Layout, first: &[u8], listed: Listed)
    requires start { (sheet.old.at ≡ 0) × (room ≤ length sheet.old.out.now) }
    requires short { length first.now ≤ longest }
    ensures { Laid (data_of layout first.now listed) sheet.old sheet.new × (length (data_of layout first.now listed) + 2 ≤ room) }
{
    match layout {
        Layout::Silent | Layout::Bare => {}
        Layout::Flat => sheet.put(first),
        Layout::Nest(tag) => put_nest(sheet, &[Part(tag, first)]),
        Layout::Confirmed => {
            let step = Part(0x86, first);
            let newest = Part(0x87, listed.first.bytes());
            match &listed.second {
                None => put_nest(sheet, &[step, newest]),
                Some(name) => put_nest(sheet, &[step, newest, Part(0x88, name.bytes())]),
            }
        }
        Layout::Pair => {
            let (nonce, token) = first.split_at(NONCE.min(first.len()));
            put_nest(sheet, &[Part(0x81, nonce), Part(0x82, token)]);
        }
    }
}

// Writes the reply from the buffer's start, and answers its length. The word comes as its number, which `reply_of` spells.
pub fn reply(out: &mut [u8], layout: Layout, word: u16, first: &[u8], listed: Listed) -> usize
    ensures { Written (reply_of (length out.old) layout word first.now listed) out.old out.new result }
{
    if out.len() < ROOM || STRING < first.len() || layout.is_silent() {
        return 0;
    }
    let mut sheet = Sheet::new(out);
    put_data(&mut sheet, layout, first, listed);
    sheet.put(&word.to_be_bytes());
    sheet.at
}
