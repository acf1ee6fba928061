//! Rows of programs that run, and of what they run on: `run MOST|ITEMS|SOURCE` prints how a run of that source ended that is given so
//! many units and these items, `value` the weight of items, `primitive` and `fault` what is told of those. In a source `|` stands
//! for the end of a line.
#![tactic(auto)]

mod items;
mod runs;
mod tables;

use muck_io::{ReaderSource, WriterSink};
use runs::Runs;
use std::io;
use std::process::ExitCode;
use tests_rows::answered;

fn main(rt: HostRuntime) -> io::Result<ExitCode> {
    let alloc = rt.alloc();
    let mut rows = Runs::new(alloc);
    let mut from = ReaderSource::new(rt.reader());
    let mut to = WriterSink::new(io::writer(&rt));
    let status = answered(alloc, &mut rows, &mut from, &mut to);
    Ok(ExitCode::from(status))
}
