// What lies on the desk, and all that is done with it.
#![tactic(auto)]

ghost use Rattle.std.specs.Prelude.{◌≡◌, length};
ghost use Rattle.buffers.specs.Lay.{Written};
ghost use Rattle.token.specs.Step.{exchange};
ghost use Rattle.desk_token.specs.Moves.{empty_desk, personalised_of, reset_desk, stepped_desk, reply_from};

use plans::Note;
use status::Unfit;
use token::state::Token;
use verdicts::Answered;

// The token, once a personalisation was accepted.
#[derive(Clone, Copy)]
pub struct Desk {
    pub token: Option<Token>,
}

// The desk after a turn, and the length of its answer in the buffer that was lent, as `Outcome` has it; 0 where nothing is answered.
#[derive(Clone, Copy)]
pub struct Turn {
    pub desk: Desk,
    pub len: usize,
}

impl Desk {
    pub fn none() -> Self
        ensures { result ≡ empty_desk }
    {
        Desk { token: None }
    }

    // With the token of a personalisation, if it was accepted; else as it was.
    #[tactic(auto, unfolding(crate::specs::Moves::personalised_of))]
    pub fn personalised(self, made: Result<Token, Unfit>) -> Self
        ensures { result ≡ personalised_of self made }
    {
        match made {
            Ok(token) => Desk { token: Some(token) },
            Err(Unfit) => self,
        }
    }

    #[tactic(auto, unfolding(crate::specs::Moves::reset_desk))]
    pub fn reset(mut self) -> Self
        ensures { result ≡ reset_desk self }
    {
        self.token = self.token.map(|token| token.reset());
        self
    }

    // One step of its token, with what `Token::step` takes, the reply in the buffer; without a token nothing is answered.
    #[tactic(auto, unfolding(crate::specs::Moves::stepped_desk, crate::specs::Moves::reply_from))]
    pub fn step(
        mut self,
        s: &[u8],
        note: Note,
        res: Answered,
        first: &[u8],
        second: &[u8],
        out: &mut [u8],
    ) -> Turn
        ensures desk_value { result.desk ≡ stepped_desk self (exchange s.now note res first.now second.now (length out.old)) }
        ensures written { Written (reply_from self (exchange s.now note res first.now second.now (length out.old))) out.old out.new result.len }
    {
        let Some(token) = self.token else {
            return Turn { desk: self, len: 0 };
        };
        let r = token.step(s, note, res, first, second, out);
        self.token = Some(r.token);
        Turn {
            desk: self,
            len: r.len,
        }
    }
}
