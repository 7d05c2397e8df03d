// A program's input, told to a desk line by line.
ghost use Rattle.std.specs.Prelude.{IfOk};
ghost use Rattle.lines.specs.Telling.{Told};

use desk_token::Desk;
use feeding::Feed;
use std::io;
use std::io::Read;
use words::LINE;

// What is done with each line until the input ends, the desk that one line leaves being the next one's; the desk at the end.
pub fn each_line<R: Read, F: FnMut(Desk, &[u8]) -> io::Result<Desk>>(
    reader: &mut R,
    mut tell: F,
) -> io::Result<Desk>
    requires { F.IsAlwaysCallable tell }
    ensures { IfOk result (λ d. (f : F) × Told F.step tell f d) }
{
    let mut input = [0u8; 4096];
    let mut line = [0u8; LINE + 1];
    let mut desk = Desk::none();
    let mut feed = Feed::start();
    // a turn may bring no line, so that no iterator's end would be the input's
    while 0 < feed.turns {
        if let Some(said) = feed.turn(reader, &mut input, &mut line) {
            desk = tell(desk, said)?;
        }
    }
    Ok(desk)
}
