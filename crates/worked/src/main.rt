// Shows the product at work: each line of standard input is told, with what comes of it; then the reply buffer.
// What it writes is held to the file stdout.
#![tactic(auto)]

mod certificates;
mod reply_buffers;
mod show;
mod told;

use lines::talk::each_line;
use std::io;

fn main(rt: HostRuntime) -> io::Result<()> {
    let mut to = rt.stdout();
    let desk = each_line(
        &mut rt.stdin(),
        |desk, line| told::told(&mut to, desk, line),
    )?;
    reply_buffers::section(&mut to, desk.token)
}
