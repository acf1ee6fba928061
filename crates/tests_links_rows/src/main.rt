//! Rows of the crates under a server with threads: `cut hi{10}` prints the lines of those bytes, `step 0 accept 7` is a step of a script of
//! links, and `accept`, `read`, `write`, `close`, `listen` are calls of the links that play it. `turns` tells how many entries two threads
//! made, and `sockets` and `port` try real sockets.
#![tactic(auto)]

mod book;
mod cuts;
mod play;
mod sockets;
mod tried;
mod turns;

use muck_io::{ReaderSource, WriterSink};
use std::io;
use std::process::ExitCode;
use tests_rows::answered;
use tried::Tried;

/// How many entries each of two threads makes.
const TIMES: u32 = 200;

fn main(rt: HostRuntime) -> io::Result<ExitCode> {
    let alloc = rt.alloc();
    let Ok(entries) = turns::made(&rt, alloc, TIMES) else {
        return Ok(ExitCode::from(3));
    };
    let mut rows = Tried::new(alloc, rt, entries);
    let mut from = ReaderSource::new(rt.reader());
    let mut to = WriterSink::new(io::writer(&rt));
    let status = answered(alloc, &mut rows, &mut from, &mut to);
    Ok(ExitCode::from(status))
}
