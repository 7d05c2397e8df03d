// The words of a line that asks what a token wants or which group it would let be read, and those of its answer.
use super::send::note_named;
use super::stated::string;
use buffers::Sheet;
use digits::number::{Radix, read_number};
use plans::{Job, Note};
use run::Step;
use status::Word;
use words::{count, word};

// The command asked about, and how it came.
#[derive(Clone, Copy)]
pub struct Question<'a> {
    pub note: Note,
    pub command: &'a [u8],
}

// What a line asks about, in a buffer that is lent for the command; None where a word is not as it should be.
pub fn read_question<'a>(line: &[u8], command: &'a mut [u8]) -> Option<Question<'a>> {
    let note = note_named(word(line, 1))?;
    let command = string(word(line, 2), command)?;
    if count(line, b' ') != 2 {
        return None;
    }
    Some(Question { note, command })
}

pub fn wanted(out: &mut Sheet, job: Job) {
    out.put(match job {
        Job::Nothing => b"0 none",
        Job::Step(Step::Nonce) => b"1 step 1",
        Job::Step(Step::Map) => b"2 step 2",
        Job::Step(Step::Agree) => b"3 step 3",
        Job::Step(Step::Confirm) => b"4 step 4",
        Job::Certificate => b"5 certificate",
        Job::Challenge => b"6 challenge",
        Job::Proof => b"7 proof",
        Job::ChipKey => b"8 chip key",
        Job::PinChange => b"9 PIN change",
    })
}

// The command that reads the data group asked about; None where a word is not as it should be.
pub fn read_group(line: &[u8]) -> Option<[u8; 5]> {
    let n = read_number(word(line, 1), Radix::Ten)?;
    if n < 1 || 21 < n || count(line, b' ') != 1 {
        return None;
    }
    Some([0, 0xB0, 128 + n as u8, 0, 0])
}

// Whether a reply is 9000 and nothing else.
pub fn done(reply: &[u8]) -> bool {
    reply == u16::from(Word::Done).to_be_bytes().as_slice()
}

pub fn yes_or_no(out: &mut Sheet, yes: bool) {
    out.put(if yes { b"yes" } else { b"no" })
}
