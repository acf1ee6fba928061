//! Rows of formulas: `eval TEXT` prints what the text gives for the player `One` in `Limbo`, carried by `ball`, or its fault. `nest
//! N;FRONT;MIDDLE;BACK` is the same of a text with the front and the back N times. `host N` begins anew with N commands a text,
//! `variable NAME;VALUE` makes a variable, and `told` prints what was told.
#![tactic(auto)]

mod formulas;

use formulas::Formulas;
use muck_io::{ReaderSource, WriterSink};
use std::io;
use std::process::ExitCode;
use tests_rows::answered;

fn main(rt: HostRuntime) -> io::Result<ExitCode> {
    let alloc = rt.alloc();
    let Ok(mut rows) = Formulas::new(alloc) else {
        return Ok(ExitCode::from(3));
    };
    let mut from = ReaderSource::new(rt.reader());
    let mut to = WriterSink::new(io::writer(&rt));
    let status = answered(alloc, &mut rows, &mut from, &mut to);
    Ok(ExitCode::from(status))
}
