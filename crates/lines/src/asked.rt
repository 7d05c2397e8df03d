// What a token wants, and which groups it would let be read. None is a line that is not as it should be.
use buffers::Sheet;
use plans::Note;
use reply::ROOM;
use text::front;
use token::state::Token;
use wording::BYTES;
use wording::asked::{done, read_group, read_question, wanted, yes_or_no};
use wording::send::no_result;

pub(crate) fn want(token: Token, line: &[u8], out: &mut Sheet) -> Option<()> {
    let mut command = [0u8; BYTES];
    let x = read_question(line, &mut command)?;
    wanted(out, token.job(x.command, x.note));
    Some(())
}

// Whether this command, if it came protected, is answered 9000.
fn allowed(token: Token, command: &[u8]) -> bool {
    let mut reply = [0u8; ROOM];
    let r = token.step(command, Note::Protected, no_result(), b"", b"", &mut reply);
    done(front(&reply, r.len))
}

pub(crate) fn read(token: Token, line: &[u8], out: &mut Sheet) -> Option<()> {
    let command = read_group(line)?;
    yes_or_no(out, allowed(token, &command));
    Some(())
}
