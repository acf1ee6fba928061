//! Rows of the leaves of the world that need no objects: texts and numbers, sources and sinks over memory, paths, the properties of one
//! object, and locks as they are written. `path //A/b` prints `path //A/b -> a/b` and what else is to be said of that path.
//!
//! Rows may change what later rows are tried on: `new` begins anew. In their texts `{13}` stands for the byte 13, and `{20*ab}`
//! for 20 times `ab`.
#![tactic(auto)]

mod devices;
mod leaves;
mod locks;
mod paths;
mod properties;
mod texts;

use leaves::Leaves;
use muck_io::{ReaderSource, WriterSink};
use std::io;
use std::process::ExitCode;
use tests_rows::answered;

fn main(rt: HostRuntime) -> io::Result<ExitCode> {
    let alloc = rt.alloc();
    let Ok(mut rows) = Leaves::new(alloc) else {
        return Ok(ExitCode::from(3));
    };
    let mut from = ReaderSource::new(rt.reader());
    let mut to = WriterSink::new(io::writer(&rt));
    let status = answered(alloc, &mut rows, &mut from, &mut to);
    Ok(ExitCode::from(status))
}
