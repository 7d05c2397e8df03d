// A program's input, a line after the other. A turn takes what was read up to a line feed, or reads more.
#![tactic(auto)]

ghost use Rattle.std.specs.Prelude.{◌≤◌, ◌-◌};

use buffers::Sheet;
use std::io::Read;
use text::{find, front, past};

// Places in buffers that are lent for each turn: what was read is read over, so no slice of it can be held.
#[derive(Clone, Copy, PartialEq, Eq)]
pub struct Feed {
    // What was read and is not taken yet.
    pub at: usize,
    pub end: usize,
    // How much of a line is kept that is not whole yet.
    pub kept: usize,
    // The turns that are left, none once the input has ended: a program's loop counts them down, which is how it ends.
    pub turns: u64,
}

// The bytes from a place on.
pub fn rest(s: &[u8], at: usize) -> &[u8] {
    &s[at.min(s.len())..]
}

// More of a line; the place after it. A line that does not fit fills the buffer, which is longer than a line may be.
fn keep(line: &mut [u8], kept: usize, more: &[u8]) -> usize {
    let size = line.len();
    let mut sheet = Sheet {
        out: line,
        at: kept,
    };
    if !sheet.has_room(more.len()) {
        return size;
    }
    sheet.put(more);
    sheet.at
}

impl Feed {
    // Before anything is read; more turns than anyone takes.
    pub fn start() -> Feed {
        Feed {
            at: 0,
            end: 0,
            kept: 0,
            turns: u64::MAX,
        }
    }

    // More input; where it has ended, as it has where a read fails, a last line without a line feed counts.
    fn read<'a, R: Read>(
        &mut self,
        reader: &mut R,
        input: &mut [u8],
        line: &'a [u8],
    ) -> Option<&'a [u8]>
        ensures { self.new.turns ≤ self.old.turns }
    {
        self.at = 0;
        self.end = reader.read(input).unwrap_or(0);
        if 0 < self.end {
            return None;
        }
        self.turns = 0;
        let kept = self.kept;
        // no line goes on after the last one
        self.kept = 0;
        if kept == 0 {
            return None;
        }
        Some(front(line, kept))
    }

    // What was read, up to a line feed, or all of it.
    fn take<'a>(&mut self, input: &[u8], line: &'a mut [u8]) -> Option<&'a [u8]>
        ensures { self.new.turns ≤ self.old.turns }
    {
        let s = front(input, self.end);
        let e = find(s, self.at, b'\n');
        let kept = keep(line, self.kept, rest(front(s, e), self.at));
        self.at = past(e, s.len());
        self.end = s.len();
        if s.len() <= e {
            self.kept = kept;
            return None;
        }
        self.kept = 0;
        Some(front(line, kept))
    }

    // A line, if this turn made one whole.
    pub fn turn<'a, R: Read>(
        &mut self,
        reader: &mut R,
        input: &mut [u8],
        line: &'a mut [u8],
    ) -> Option<&'a [u8]>
        ensures { self.new.turns ≤ self.old.turns - 1 }
    {
        self.turns = self.turns.saturating_sub(1);
        if self.end <= self.at {
            return self.read(reader, input, line);
        }
        self.take(input, line)
    }
}
