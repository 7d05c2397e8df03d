// The words of a personalisation: the day, and one trust point or two.
ghost use Rattle.std.specs.Prelude.{◌≤◌};

use super::BYTES;
use super::stated::{day, fixed, name, string};
use certificate::Certificate;
use days::Day;
use digits::number::{Radix, read_number};
use rights::Rights;
use words::{count, word};

// What a line states.
#[derive(Clone, Copy)]
pub struct Personalisation {
    pub today: Day,
    pub newest: Certificate,
    pub previous: Option<Certificate>,
}

// The trust point that the words from k on state; None where one of the five is not as it should be.
fn point_at(line: &[u8], k: usize) -> Option<Certificate>
    requires { k ≤ 7 }
{
    let mut work = [0u8; BYTES];
    Some(Certificate {
        name: name(string(word(line, k), &mut work)?),
        rights: Rights(fixed(word(line, k + 1), Radix::Sixteen, 10)?),
        first: day(word(line, k + 2))?,
        last: day(word(line, k + 3))?,
        key: read_number(word(line, k + 4), Radix::Ten)?,
    })
}

// None where a word is not as it should be. Six spaces with one point, eleven with two.
pub fn read_personalisation(line: &[u8]) -> Option<Personalisation> {
    let today = day(word(line, 1))?;
    let newest = point_at(line, 2)?;
    let previous = match count(line, b' ') {
        6 => None,
        11 => Some(point_at(line, 7)?),
        _ => return None,
    };
    Some(Personalisation {
        today,
        newest,
        previous,
    })
}
