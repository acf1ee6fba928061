//! Rows of a server over links in memory. `new` begins anew, `step 42 bytes 1 hi{10}` is a step of the script of its links, `clock 60` lets its clock count to
//! that second, `fail-disk 4` lets its first disk fail that call, and `serve 8` serves the starting world to these links with eight workers, to its end: it prints why
//! the server ended, how many bytes are stored, and what the latest link of each number was sent, with `|` for the end of a line. A step waits until so many bytes were
//! written to all links, so that it finds done what the steps before it brought; what is printed is the same for each number of workers, whoever does which part.
#![tactic(auto)]

mod answers;
mod napping;
mod script;
mod served;
mod wanted;

use answers::answered;
use muck_io::{ReaderSource, WriterSink};
use napping::NapRest;
use std::io;
use std::process::ExitCode;

fn main(rt: HostRuntime) -> io::Result<ExitCode> {
    let mut from = ReaderSource::new(rt.reader());
    let mut to = WriterSink::new(io::writer(&rt));
    let status = answered(&rt, rt.alloc(), &NapRest::new(rt), &mut from, &mut to);
    Ok(ExitCode::from(status))
}
