//! Rows of messages over a world: `message TEXT` prints what is shown of the text that `Room Zero` carries, for who acts, called
//! `(@desc)` behind `look at`. `acts LEVEL #USER #PLAYER` sets who acts, at first `One`, a wizard. `make KIND OWNER PLACE NAME` makes an object,
//! `flag OBJECT FLAGS` gives it flags by their number, `hears D PLAYER` brings a connection, and `heard D` prints and takes what waits there.
#![tactic(auto)]

mod messages;

use messages::Messages;
use muck_io::{ReaderSource, WriterSink};
use std::io;
use std::process::ExitCode;
use tests_rows::answered;

fn main(rt: HostRuntime) -> io::Result<ExitCode> {
    let alloc = rt.alloc();
    let Ok(mut rows) = Messages::new(alloc) else {
        return Ok(ExitCode::from(3));
    };
    let mut from = ReaderSource::new(rt.reader());
    let mut to = WriterSink::new(io::writer(&rt));
    let status = answered(alloc, &mut rows, &mut from, &mut to);
    Ok(ExitCode::from(status))
}
