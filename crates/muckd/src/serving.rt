// A world is served.
ghost use Rattle.std.specs.Prelude.{◌≤◌};
ghost use Rattle.muckd.specs.Serving.{ServeDone};

use muck_disk::Disk;
use muck_io::{Clock, Gate, Rest};
use muck_links::Links;
use muck_model::Tale;
use muck_run::{awake, mount};
use muck_server::serve;
use muck_why::Why;
use std::alloc::Global;
use std::sync::Wait;
use std::thread::Threads;

/// Mounts the store, and serves its world from the clock's second on, until it is stopped. Answers why it ended, with what happened in the world.
///
/// `Damaged` comes where the files hold no store, `DiskFault` where a disk failed, `ListenFault` where listening on the port did, `StoreFull` where the last dump would pass what a file may have,
/// `Spent` where all turns were had, and `NoMemory` at any time.
pub fn serve_store<
    T: Threads + Wait + Sync,
    L: Links + Send,
    C: Clock + Send,
    D: Disk + Send,
    G: Gate + Sync,
    R: Rest + Sync,
>(
    rt: &T,
    alloc: Global,
    store: &str,
    port: u16,
    workers: u8,
    links: &mut L,
    clock: &mut C,
    first: &mut D,
    second: &mut D,
    gate: &G,
    rest: &R,
) -> (Why, Tale)
    requires few { workers ≤ 8 }
    ensures done { ServeDone (L.tells links.old) L.told L.listening C.answers D.tells D.attached D.seen D.moment D.images D.faults store.now port workers result.0 links.old links.new clock.old clock.new first.old second.old first.new second.new result.1.entries result.1.notes result.1.counted }
{
    let log = match mount(alloc, store, first, second) {
        Ok(log) => log,
        Err(why) => return (why, Tale::none()),
    };
    let began = clock.now();
    let Ok(world) = awake(alloc, &log, first, second, began) else {
        return (Why::NoMemory, Tale::none());
    };
    serve(
        rt, alloc, world, log, links, clock, first, second, gate, rest, workers, port,
    )
}
