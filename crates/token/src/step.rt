// One step: a buffer under 258 answers 6F00 at once; else plan, decide, after, reply.
ghost use Rattle.std.specs.Prelude.{length};
ghost use Rattle.token.specs.Step.{exchange, Steps};

use super::state::Token;
use plans::Note;
use verdicts::Answered;

// What a step hands back: the token, and the reply's length in the buffer that was lent.
#[derive(Clone, Copy)]
pub struct Outcome {
    pub token: Token,
    pub len: usize,
}

impl Token {
    // docs/HOST.md names what it takes, one by one; the entries in C will stand on that.
    pub fn step(
        mut self,
        s: &[u8],
        note: Note,
        res: Answered,
        first: &[u8],
        second: &[u8],
        out: &mut [u8],
    ) -> Outcome
        ensures { Steps self (exchange s.now note res first.now second.now (length out.old)) out.old out.new result.token result.len }
    {
        if out.len() < Token::ROOM {
            return Outcome {
                token: self,
                len: 0,
            };
        }
        let h = verdicts::decide(self.plan(s, note), res, first, second);
        let next = self.after(h);
        let len = answer::answer(next.points, h.event, &first[..h.answer], out);
        Outcome { token: next, len }
    }
}
