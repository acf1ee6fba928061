// A server from an empty store to its end.
use crate::wanted::Wanted;
use muck_disk::{Disk, FailDisk, MemDisk};
use muck_io::{ListClock, OpenGate, Rest};
use muck_links::ScriptLinks;
use muck_model::NoMemory;
use muck_run::{awake, mount};
use muck_server::serve;
use muck_why::Why;
use std::alloc::Global;
use std::sync::Wait;
use std::thread::Threads;

// The most workers that a server has.
const WORKERS_MOST: u8 = 8;

// On which port it listens, as links in memory are told.
const PORT: u16 = 4201;

// Links of whom is told what they were sent have lower numbers than this.
const LINKS_MOST: u32 = 10;

// A disk that holds nothing, and fails the call of this number.
fn empty_disk(alloc: Global, fails: u64) -> Result<FailDisk, NoMemory> {
    let disk = MemDisk::new(alloc, &[])?;
    Ok(FailDisk::new(disk, fails))
}

// Serves the starting world from the second 0 on, and dumps it in the end.
fn play<W: Threads + Wait + Sync, D: Disk + Send, R: Rest + Sync>(
    rt: &W,
    alloc: Global,
    rest: &R,
    workers: u8,
    links: &mut ScriptLinks,
    clock: &mut ListClock,
    first: &mut D,
    second: &mut D,
) -> Result<Why, NoMemory> {
    let log = match mount(alloc, "w", first, second) {
        Ok(log) => log,
        Err(_) => return Err(NoMemory),
    };
    let Ok(world) = awake(alloc, &log, first, second, 0) else {
        return Err(NoMemory);
    };
    let (why, _) = serve(
        rt,
        alloc,
        world,
        log,
        links,
        clock,
        first,
        second,
        &OpenGate,
        rest,
        workers.min(WORKERS_MOST),
        PORT,
    );
    Ok(why)
}

// Adds a text that was sent.
fn add_sent(out: &mut String, bytes: &[u8]) -> Result<(), NoMemory> {
    for byte in bytes {
        match *byte {
            b'\r' => {}
            b'\n' => out.push('|')?,
            other => out.push(char::from(other))?,
        }
    }
    Ok(())
}

// Adds what each of these links was sent.
fn add_links(out: &mut String, links: &ScriptLinks) -> Result<(), NoMemory> {
    for d in 0..LINKS_MOST {
        if let Some(bytes) = links.written(d) {
            write!(out, "; {d}< ")?;
            add_sent(out, bytes)?;
        }
    }
    Ok(())
}

/// Adds what comes of a server with so many workers: why it ended, how many bytes are stored, and what its links were sent.
pub fn served<W: Threads + Wait + Sync, R: Rest + Sync>(
    rt: &W,
    alloc: Global,
    rest: &R,
    wanted: &Wanted,
    workers: u8,
    out: &mut String,
) -> Result<(), NoMemory> {
    let mut links = wanted.links()?;
    let mut clock = wanted.clock()?;
    let mut first = empty_disk(alloc, wanted.fails())?;
    let mut second = empty_disk(alloc, u64::MAX)?;
    let why = play(
        rt,
        alloc,
        rest,
        workers,
        &mut links,
        &mut clock,
        &mut first,
        &mut second,
    )?;
    write!(out, "{why:?}, {} bytes", first.disk().bytes().len())?;
    add_links(out, &links)
}
