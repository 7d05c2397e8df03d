// What is answered where a line is not as it should be.
ghost use Rattle.std.specs.Prelude.{◌≤◌, length};

use buffers::Sheet;
use words::Verb;

// What was expected, and what else a line is answered that is not as it should be.
fn expected(verb: Verb) -> &'static [u8] {
    match verb {
        Verb::Silent => b"",
        Verb::Overlong => b"? a line has at most 8192 bytes",
        Verb::Unknown => b"? expected: personalise, reset, send, want, read, body or state",
        Verb::NoToken => b"? no token",
        Verb::Personalise => {
            b"? expected: personalise TODAY NAME RIGHTS FIRST LAST KEY [NAME RIGHTS FIRST LAST KEY]"
        }
        Verb::Reset => b"? expected: reset",
        Verb::Send => { b"? expected: send NOTE COMMAND [VERDICT [KEY [FIRST [SECOND [JOB]]]]]" }
        Verb::Want => b"? expected: want NOTE COMMAND",
        Verb::Read => b"? expected: read N, N from 1 to 21",
        Verb::Body => b"? expected: body HEX",
        Verb::State => b"? expected: state",
    }
}

// The length of the answer, which is what was expected where there is none yet.
pub fn finished(out: &mut Sheet, verb: Verb) -> usize
    ensures { result ≤ length out.old.out.now }
{
    let room = out.out.len();
    if out.at == 0 {
        out.put(expected(verb));
    }
    out.at.min(room)
}
