//! Rows of the objects of a world: how they are made, changed and recycled, what a text names, for whom a lock opens, what the rules
//! allow, and how names are shown. `find me` prints `find me -> ` and what that text names.
//!
//! Rows may change what later rows are tried on: `new` begins anew. In their texts `{13}` stands for the byte 13, and `{20*ab}`
//! for 20 times `ab`.
#![tactic(auto)]

mod locks;
mod matching;
mod objects;
mod rules;
mod world;

use muck_io::{ReaderSource, WriterSink};
use std::io;
use std::process::ExitCode;
use tests_rows::answered;
use world::World;

fn main(rt: HostRuntime) -> io::Result<ExitCode> {
    let alloc = rt.alloc();
    let Ok(mut rows) = World::new(alloc) else {
        return Ok(ExitCode::from(3));
    };
    let mut from = ReaderSource::new(rt.reader());
    let mut to = WriterSink::new(io::writer(&rt));
    let status = answered(alloc, &mut rows, &mut from, &mut to);
    Ok(ExitCode::from(status))
}
