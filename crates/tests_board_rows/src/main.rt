//! Rows of the connections of a world and of its processes: who comes and goes, what is told to whom, whose line is next, which process
//! goes on next, and what ends it. `ask ready` prints `ask ready -> ` and the connection with a line that may be done.
//!
//! Rows may change what later rows are tried on: `new` begins anew. In their texts `{13}` stands for the byte 13, and `{20*ab}`
//! for 20 times `ab`.
#![tactic(auto)]

mod connections;
mod processes;
mod world;

use muck_io::{ReaderSource, WriterSink};
use std::io;
use std::process::ExitCode;
use tests_rows::answered;
use world::World;

fn main(rt: HostRuntime) -> io::Result<ExitCode> {
    let alloc = rt.alloc();
    let Ok(mut rows) = World::new(alloc) else {
        return Ok(ExitCode::from(3));
    };
    let mut from = ReaderSource::new(rt.reader());
    let mut to = WriterSink::new(io::writer(&rt));
    let status = answered(alloc, &mut rows, &mut from, &mut to);
    Ok(ExitCode::from(status))
}
