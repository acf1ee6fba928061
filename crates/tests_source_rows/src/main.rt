//! Rows of sources: `tokens 1 +` prints the words of that source, `code` its code, `build` and `forms` what is built of a program of the
//! world. In a source `|` stands for the end of a line.
#![tactic(auto)]

mod built;
mod codes;
mod sources;
mod tokens;

use muck_io::{ReaderSource, WriterSink};
use sources::Sources;
use std::io;
use std::process::ExitCode;
use tests_rows::answered;

fn main(rt: HostRuntime) -> io::Result<ExitCode> {
    let alloc = rt.alloc();
    let mut rows = Sources::new(alloc);
    let mut from = ReaderSource::new(rt.reader());
    let mut to = WriterSink::new(io::writer(&rt));
    let status = answered(alloc, &mut rows, &mut from, &mut to);
    Ok(ExitCode::from(status))
}
