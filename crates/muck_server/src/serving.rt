// A call of a server.
ghost use Rattle.std.specs.Prelude.{◌≡◌, ◌⊎◌, ◌<◌, ℕ, true, false, Some};
ghost use Rattle.muck_crew.specs.inner.Between.{IsReady as HasLog};
ghost use Rattle.muck_model.specs.declared.note.Note.{Note};
ghost use Rattle.muck_crew.specs.inner.Kept.{account};
ghost use Rattle.spec_events.specs.Histories.{now};
ghost use Rattle.spec_talks.specs.Counts.{counts};
ghost use Rattle.muck_crew.specs.inner.Finished.{HasDump};
ghost use Rattle.muck_crew.specs.inner.Runs.{IsFresh};
ghost use Rattle.muck_server.specs.inner.{halted};
ghost use Rattle.muck_server.specs.Served.{IsUnserved, IsServed};

use muck_crew::{Store, World, dump, room, serve_links};
use muck_disk::Disk;
use muck_io::{Clock, Gate, Rest, place};
use muck_links::{Links, Listened};
use muck_log::Log;
use muck_model::Tale;
use muck_why::Why;
use std::alloc::Global;
use std::sync::Wait;
use std::thread::Threads;

// The world is halted, the links are noted, and the first party sees that it is stopping.
fn halt<L: Links>(world: &mut World, links: &L)
    requires { (now world.old).dead ≡ false }
    ensures { world.new ≡ halted (counts (L.told links.now).sessions) world.old }
{
    world.halt();
    world.note_links(links);
    let _sees = world.stopped(0);
}

// Nobody can be let in: the world is halted, and the first party makes the last dump, behind the gate.
fn stop<L: Links, D: Disk, G: Gate>(
    alloc: Global,
    world: &mut World,
    log: Log,
    links: &L,
    first: &mut D,
    second: &mut D,
    gate: &G,
)
    requires alive { (now world.old).dead ≡ false }
    requires fresh { (mounting : Note) × IsFresh mounting world.old }
    requires mounted { D.tells ≡ true → (mounted : ℕ) × HasLog D.seen D.moment D.images D.faults (Some log) first.old second.old mounted world.old }
    ensures dump { HasDump D.tells D.seen D.moment D.images D.faults true (Some log) first.old second.old first.new second.new (halted (counts (L.told links.now).sessions) world.old) world.new Why.ListenFault }
    ensures first_attached { D.attached first.new ≡ D.attached first.old }
    ensures second_attached { D.attached second.new ≡ D.attached second.old }
{
    let mut store = Store::new(log);
    halt(world, links);
    gate.pass(place::BEFORE_DUMP);
    let _answer = dump(alloc, world, 0, &mut store, first, second);
}

/// Listens on the port, and serves the world to all who come, by a porter, so many workers and a dumper beside each other, until it is stopped; then the world is
/// dumped. Nothing has happened in the world yet but that the log was mounted, from these two disks. Where listening fails at once no thread is started: the run is
/// stopped, and the world is dumped.
pub fn serve<
    W: Threads + Wait + Sync,
    L: Links + Send,
    C: Clock + Send,
    D: Disk + Send,
    G: Gate + Sync,
    R: Rest + Sync,
>(
    rt: &W,
    alloc: Global,
    world: World,
    log: Log,
    links: &mut L,
    clock: &mut C,
    first: &mut D,
    second: &mut D,
    gate: &G,
    rest: &R,
    workers: u8,
    port: u16,
) -> (Why, Tale)
    requires few { workers < 9 }
    requires fresh { (mounting : Note) × IsFresh mounting world }
    requires mounted { D.tells ≡ true → (mounted : ℕ) × HasLog D.seen D.moment D.images D.faults (Some log) first.old second.old mounted world }

    // Either nothing happened, for want of memory, or one history did, to which all parties added.
    ensures served { (mounted : ℕ) (mounting : Note) → IsFresh mounting world → (D.tells ≡ true → HasLog D.seen D.moment D.images D.faults (Some log) first.old second.old mounted world)
        → IsUnserved (L.tells links.old) (account (L.told links.old) (L.listening links.old) (C.answers clock.old)) (account (L.told links.new) (L.listening links.new) (C.answers clock.new)) port result.0 first.old second.old first.new second.new result.1.entries result.1.counted
        ⊎ IsServed (L.tells links.old) D.tells (account (L.told links.old) (L.listening links.old) (C.answers clock.old)) (account (L.told links.new) (L.listening links.new) (C.answers clock.new)) D.seen D.moment D.images D.faults workers port result.0 world.start mounted mounting first.old second.old first.new second.new result.1.entries result.1.notes result.1.counted }
    ensures first_attached { D.attached first.new ≡ D.attached first.old }
    ensures second_attached { D.attached second.new ≡ D.attached second.old }
{
    if world.is_dead() {
        return (Why::NoMemory, world.into_tale());
    }
    let Ok(parts) = room(alloc, workers) else {
        return (Why::NoMemory, world.into_tale());
    };
    match links.listen(port) {
        Listened::Ready => match serve_links(
            rt, alloc, world, parts, workers, log, links, clock, first, second, gate, rest,
        ) {
            Some((why, world)) => (why, world.into_tale()),
            None => (Why::NoMemory, Tale::none()),
        },
        Listened::Fault => {
            let mut world = world;
            stop(alloc, &mut world, log, links, first, second, gate);
            (Why::ListenFault, world.into_tale())
        }
        Listened::NoMemory => (Why::NoMemory, world.into_tale()),
    }
}
