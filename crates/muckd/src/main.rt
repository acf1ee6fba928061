//! A text-world server: `muckd run STORE` reads a script, runs it on the world of the store, and writes its transcript.
//! `muckd serve STORE PORT WORKERS` serves that world to all who come, until it is stopped.
//! `muckd mirror STORE` reads a script of a mirror that follows that store, and writes its replies.
//! `muckd debug STORE` does what `run` does, and shows units of programs before they run.
//! `muckd drill N` runs a fixed script on the starting world, and writes how many objects, lines and bytes came of it.
#![tactic(auto)]

mod command;
mod serving;
mod top;

use muck_disk::FileDisk;
use muck_io::{OpenGate, ReaderSource, SystemClock, WriterSink};
use muck_links::{Bell, BellRest, Links, MioLinks};
use muck_read_disk::ReadDisk;
use muck_why::Why;
use std::fs::File;
use std::os::fd::{AsRawFd, RawFd};
use std::process::ExitCode;
use std::thread::Threads;
use std::{env, io, thread};
use top::muckd;

// How often a store is read that looks damaged to a mirror: where a server begins a file anew while it is read, it may look so once.
const READINGS: u32 = 3;

// Links have lower numbers than this.
const LINKS_MOST: u32 = 256;

// The standard streams have the descriptors up to this one.
const STREAMS_LAST: RawFd = 2;

// Takes the least descriptor that is free, where that is one of a standard stream which is closed: the folder opened for reading, of
// which no byte can be read, and none can be written to it.
fn stand_in(rt: HostRuntime) -> io::Result<Option<File>> {
    let folder = File::open(&rt, "/")?;
    if folder.as_raw_fd() > STREAMS_LAST {
        return Ok(None);
    }
    Ok(Some(folder))
}

// What stands in for the standard streams that are closed, as long as it is kept: no file that is opened meanwhile becomes one of them,
// and each use of one fails.
fn stand_ins(rt: HostRuntime) -> io::Result<[Option<File>; 3]> {
    Ok([stand_in(rt)?, stand_in(rt)?, stand_in(rt)?])
}

// The words behind the program's name. Words that are no text are an error of another kind than want of memory.
fn words(rt: HostRuntime) -> io::Result<Vec<String>> {
    let mut words = Vec::new(rt.alloc());
    for word in env::args(&rt)?.skip(1) {
        words.push(word)?;
    }
    Ok(words)
}

// How many threads may run at once.
fn processors(rt: &impl Threads) -> usize {
    match thread::available_parallelism(rt) {
        Ok(count) => count.get(),
        Err(_) => 1,
    }
}

// Whether the words ask for a mirror. It only reads the store, which a server may have.
fn are_of_mirror(words: &[String]) -> bool {
    match words.first() {
        Some(word) => word.as_str() == "mirror",
        None => false,
    }
}

// Why a call ends whose words couldn't be had.
fn wordless(error: &io::Error) -> Why {
    if error.kind() == io::ErrorKind::OutOfMemory {
        Why::NoMemory
    } else {
        Why::Usage
    }
}

// Writes why a call ended, where it didn't end well, and ends with its status, also where that can't be written.
fn tell(rt: HostRuntime, why: Why) -> ExitCode {
    let status = why.status();
    if status != 0 {
        let _ = eprintln!(rt; "{why}");
    }
    ExitCode::from(status)
}

// (Threads are the main function's alone, so the call stands here.)
fn main(rt: HostRuntime) -> ExitCode {
    let Ok(_streams) = stand_ins(rt) else {
        return tell(rt, Why::DiskFault);
    };
    let words = match words(rt) {
        Ok(words) => words,
        Err(error) => return tell(rt, wordless(&error)),
    };
    let mut script = ReaderSource::new(rt.reader());
    let mut out = WriterSink::new(io::writer(&rt));
    let bell = Bell::new();
    let mut links = MioLinks::new(rt.alloc(), rt, &bell);
    let mut clock = SystemClock::new(rt);
    let rest = BellRest::new(&bell, rt, processors(&rt));
    if are_of_mirror(&words) {
        let mut why = Why::Fine;
        for _ in 0..READINGS {
            let done = muckd(
                &rt,
                rt.alloc(),
                &words,
                &mut script,
                &mut out,
                &mut links,
                &mut clock,
                &mut ReadDisk::new(rt),
                &mut ReadDisk::new(rt),
                &OpenGate,
                &rest,
            );
            why = done.why;
            if !matches!(why, Why::Damaged { .. }) {
                break;
            }
        }
        return tell(rt, why);
    }
    let done = muckd(
        &rt,
        rt.alloc(),
        &words,
        &mut script,
        &mut out,
        &mut links,
        &mut clock,
        &mut FileDisk::new(rt),
        &mut FileDisk::new(rt),
        &OpenGate,
        &rest,
    );
    // So that nothing that was written is lost.
    for d in 0..LINKS_MOST {
        links.close(d);
    }
    tell(rt, done.why)
}
