// The parts of a server beside each other.
ghost use Rattle.std.specs.Prelude.{◌≡◌, All, true};
ghost use Rattle.muck_dumper.specs.inner.Dumping.{DumperDone};
ghost use Rattle.muck_porter.specs.inner.Kept.{account};
ghost use Rattle.muck_porter.specs.inner.Porter.{PorterReady, PorterDone};
ghost use Rattle.muck_crew.specs.inner.Parts.{IsAble, IsReady, IsDone, AreDone};

use crate::seats::{Part, Parts};
use muck_disk::Disk;
use muck_dumper::{Store, Why as DumperWhy, dumper};
use muck_io::{Clock, Gate, Rest};
use muck_links::Links;
use muck_machine::World;
use muck_porter::{Why as PorterWhy, porter};
use muck_worker::worker;
use std::alloc::Global;
use std::sync::Wait;
use std::thread;
use std::thread::{Threads, join_mut};
use turn_lock::{Turn, TurnSeat};

// Each worker in a thread of its own.
fn work_each<W: Threads + Wait + Sync, G: Gate + Sync, R: Rest + Sync>(
    rt: &W,
    turn: &Turn<World>,
    parts: &mut [Part],
    gate: &G,
    rest: &R,
)
    requires ready { All (λ p. IsReady turn.now.table.shared.table_id p) parts.old }
    ensures done { AreDone parts.old parts.new }
{
    thread::for_each_mut(
        rt,
        parts,
        8,
        &|_, part: &mut Part|
            requires { IsReady turn.now.table.shared.table_id part.now }
            ensures { IsDone part.entry.now part.exit.now }
        {
            part.why = worker(rt, turn, &mut part.seat, part.party, gate, rest);
        },
    );
}

fn work_all<W: Threads + Wait + Sync, G: Gate + Sync, R: Rest + Sync>(
    rt: &W,
    turn: &Turn<World>,
    parts: &mut Parts,
    gate: &G,
    rest: &R,
)
    requires ready { All (λ p. IsReady turn.now.table.shared.table_id p) parts.old.all.items }
    ensures done { AreDone parts.old.all.items parts.new.all.items }
{
    work_each(rt, turn, parts.all.as_mut_slice(), gate, rest);
}

// The dumper beside all workers.
fn dump_beside<W: Threads + Wait + Sync, D: Disk + Send, G: Gate + Sync, R: Rest + Sync>(
    rt: &W,
    alloc: Global,
    turn: &Turn<World>,
    seat: &mut TurnSeat<World>,
    parts: &mut Parts,
    store: &mut Store,
    first: &mut D,
    second: &mut D,
    gate: &G,
    rest: &R,
) -> DumperWhy
    requires own { seat.old.table_id ≡ turn.now.table.shared.table_id }
    requires dumper { IsAble D.tells D.seen D.moment D.images D.faults store.old first.old second.old seat.old.me }
    requires workers { All (λ p. IsReady turn.now.table.shared.table_id p) parts.old.all.items }
    ensures own { (seat.new.table_id ≡ seat.old.table_id) × (seat.new.id ≡ seat.old.id) }
    ensures dumper { DumperDone D.tells D.seen D.moment D.images D.faults result store.old store.new first.old second.old first.new second.new seat.old.me seat.new.me }
    ensures workers { AreDone parts.old.all.items parts.new.all.items }
    ensures attached { (D.attached first.new ≡ D.attached first.old) × (D.attached second.new ≡ D.attached second.old) }
{
    let (why, ()) = join_mut(
        rt,
        &mut ||
            requires { (seat.now.table_id ≡ turn.now.table.shared.table_id) × IsAble D.tells D.seen D.moment D.images D.faults store.now first.now second.now seat.now.me }
            ensures { (seat.exit.now.table_id ≡ seat.entry.now.table_id) × (seat.exit.now.id ≡ seat.entry.now.id) × DumperDone D.tells D.seen D.moment D.images D.faults result store.entry.now store.exit.now first.entry.now second.entry.now first.exit.now second.exit.now seat.entry.now.me seat.exit.now.me × (D.attached first.exit.now ≡ D.attached first.entry.now) × (D.attached second.exit.now ≡ D.attached second.entry.now) }
        { dumper(rt, alloc, turn, seat, store, first, second, gate, rest) },
        &mut ||
            requires { All (λ p. IsReady turn.now.table.shared.table_id p) parts.now.all.items }
            ensures { AreDone parts.entry.now.all.items parts.exit.now.all.items }
        { work_all(rt, turn, parts, gate, rest) },
    );
    why
}

/// The porter beside the dumper and all workers. Each waits by the rest that is handed in, the porter at its links too.
pub fn all_beside<
    W: Threads + Wait + Sync,
    L: Links + Send,
    C: Clock + Send,
    D: Disk + Send,
    G: Gate + Sync,
    R: Rest + Sync,
>(
    rt: &W,
    alloc: Global,
    turn: &Turn<World>,
    seat: &mut TurnSeat<World>,
    other: &mut TurnSeat<World>,
    parts: &mut Parts,
    store: &mut Store,
    links: &mut L,
    clock: &mut C,
    first: &mut D,
    second: &mut D,
    gate: &G,
    rest: &R,
) -> (PorterWhy, DumperWhy)
    requires own { (seat.old.table_id ≡ turn.now.table.shared.table_id) × (other.old.table_id ≡ turn.now.table.shared.table_id) }
    requires porter { PorterReady seat.old.me }
    requires dumper { IsAble D.tells D.seen D.moment D.images D.faults store.old first.old second.old other.old.me }
    requires workers { All (λ p. IsReady turn.now.table.shared.table_id p) parts.old.all.items }
    ensures own { (seat.new.table_id ≡ seat.old.table_id) × (seat.new.id ≡ seat.old.id) × (other.new.table_id ≡ other.old.table_id) }
    ensures tells { L.tells links.new ≡ L.tells links.old }
    ensures porter { PorterDone result.0 (L.tells links.old) (account (L.told links.old) (L.listening links.old) (C.answers clock.old)) (account (L.told links.new) (L.listening links.new) (C.answers clock.new)) seat.old.me seat.new.me }
    ensures dumper { DumperDone D.tells D.seen D.moment D.images D.faults result.1 store.old store.new first.old second.old first.new second.new other.old.me other.new.me }
    ensures workers { AreDone parts.old.all.items parts.new.all.items }
    ensures attached { (D.attached first.new ≡ D.attached first.old) × (D.attached second.new ≡ D.attached second.old) }
{
    join_mut(
        rt,
        &mut ||
            requires { (seat.now.table_id ≡ turn.now.table.shared.table_id) × PorterReady seat.now.me }
            ensures { (seat.exit.now.table_id ≡ seat.entry.now.table_id) × (seat.exit.now.id ≡ seat.entry.now.id) × (L.tells links.exit.now ≡ L.tells links.entry.now) × PorterDone result (L.tells links.entry.now) (account (L.told links.entry.now) (L.listening links.entry.now) (C.answers clock.entry.now)) (account (L.told links.exit.now) (L.listening links.exit.now) (C.answers clock.exit.now)) seat.entry.now.me seat.exit.now.me }
        { porter(rt, alloc, turn, seat, links, clock, gate, rest) },
        &mut ||
            requires { (other.now.table_id ≡ turn.now.table.shared.table_id) × IsAble D.tells D.seen D.moment D.images D.faults store.now first.now second.now other.now.me × All (λ p. IsReady turn.now.table.shared.table_id p) parts.now.all.items }
            ensures { (other.exit.now.table_id ≡ other.entry.now.table_id) × (other.exit.now.id ≡ other.entry.now.id) × DumperDone D.tells D.seen D.moment D.images D.faults result store.entry.now store.exit.now first.entry.now second.entry.now first.exit.now second.exit.now other.entry.now.me other.exit.now.me × AreDone parts.entry.now.all.items parts.exit.now.all.items × (D.attached first.exit.now ≡ D.attached first.entry.now) × (D.attached second.exit.now ≡ D.attached second.entry.now) }
        {
            dump_beside(
                rt, alloc, turn, other, parts, store, first, second, gate, rest,
            )
        },
    )
}
