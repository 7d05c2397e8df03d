// The words of a line that sends a command with its crypto result, and the reply's: 0 send, 1 NOTE, 2 COMMAND, 3 VERDICT, 4 KEY,
// 5 FIRST, 6 SECOND, 7 JOB. None is a word that is not as it should be.
use super::stated::string;
use buffers::Sheet;
use digits::hex::put_hex;
use digits::number::{Radix, read_number};
use plans::{Job, Note};
use verdicts::{Answered, Verdict};
use words::{count, word};

// What a line's words state. Where it leaves the job out, it is the one that the token wants.
#[derive(Clone, Copy)]
pub struct Sent<'a> {
    pub note: Note,
    pub verdict: Verdict,
    pub job: Option<Job>,
    pub command: &'a [u8],
    pub first: &'a [u8],
    pub second: &'a [u8],
}

pub fn no_result() -> Answered {
    Answered {
        job: Job::Nothing,
        verdict: Verdict::Missing,
    }
}

// How a command came.
pub(crate) fn note_named(w: &[u8]) -> Option<Note> {
    match w {
        b"plain" => Some(Note::Plain),
        b"protected" => Some(Note::Protected),
        b"broken" => Some(Note::Broken),
        _ => None,
    }
}

// The verdict that words 3 and 4 state; missing where it is left out.
fn verdict_named(line: &[u8], n: usize) -> Option<Verdict> {
    if n < 3 {
        return Some(Verdict::Missing);
    }
    let key = if n < 4 {
        0
    } else {
        read_number(word(line, 4), Radix::Ten)?
    };
    match word(line, 3) {
        b"passed" => Some(Verdict::Passed(key)),
        b"failed" => Some(Verdict::Failed),
        b"none" => Some(Verdict::Missing),
        _ => None,
    }
}

// A string; empty where it is left out.
fn string_if<'a>(line: &[u8], n: usize, k: usize, out: &'a mut [u8]) -> Option<&'a [u8]> {
    if n < k {
        return Some(&[]);
    }
    string(word(line, k), out)
}

// The job that word 7 states, if it is not left out; no number over 255 is one's.
fn job_at(line: &[u8], n: usize) -> Option<Option<Job>> {
    if n < 7 {
        return Some(None);
    }
    let number = u8::try_from(read_number(word(line, 7), Radix::Ten)?).ok()?;
    Some(Some(Job::try_from(number).ok()?))
}

impl<'a> Sent<'a> {
    // The crypto result, for the job that is wanted where the line names none.
    pub fn result(self, wanted: Job) -> Answered {
        Answered {
            job: self.job.unwrap_or(wanted),
            verdict: self.verdict,
        }
    }
}

// What a line states, its three strings in buffers that are lent for them.
pub fn read_sent<'a>(
    line: &[u8],
    command: &'a mut [u8],
    first: &'a mut [u8],
    second: &'a mut [u8],
) -> Option<Sent<'a>> {
    let n = count(line, b' ');
    if 7 < n {
        return None;
    }
    Some(Sent {
        note: note_named(word(line, 1))?,
        verdict: verdict_named(line, n)?,
        job: job_at(line, n)?,
        command: string(word(line, 2), command)?,
        first: string_if(line, n, 5, first)?,
        second: string_if(line, n, 6, second)?,
    })
}

// The reply in hex, - if it is empty.
pub fn replied(out: &mut Sheet, reply: &[u8]) {
    put_hex(out, reply)
}
