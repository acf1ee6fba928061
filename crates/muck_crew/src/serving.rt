// All parts of a server over one world, until the run is over.
ghost use Rattle.std.specs.Prelude.{◌≡◌, ◌<◌, ◌≤◌, ℕ, List, [], true, IfOk, OnErr, vec_capacity};
ghost use Rattle.muck_dumper.specs.inner.Between.{IsReady as HasLog, Knows};
ghost use Rattle.muck_model.specs.declared.note.Note.{Note};
ghost use Rattle.muck_porter.specs.inner.Kept.{account};
ghost use Rattle.muck_crew.specs.inner.Runs.{IsFresh, IsWhy, IsEndOf, HasStopped, HasRun};

use crate::beside::all_beside;
use crate::seats::{Part, Parts, deal, take_in};
use muck_disk::Disk;
use muck_dumper::{Store, Why as DumperWhy};
use muck_io::{Clock, Gate, Rest};
use muck_links::Links;
use muck_machine::World;
use muck_porter::Why as PorterWhy;
use muck_worker::Why as WorkerWhy;
use std::alloc::{AllocError, Global};
use std::sync::Wait;
use std::thread::Threads;
use turn_lock::Turn;

/// How all parts ended, together.
#[derive(Clone, Copy, Debug, PartialEq, Eq)]
pub enum Way {
    /// Each has seen the stop.
    Stopped,
    /// Each has seen the stop, which came since listening failed.
    Deaf,
    /// Memory was wanted, as the world tells.
    Wanted,
    /// Memory was wanted by the porter alone.
    Alone,
    /// All turns were had.
    Spent,
}

// How the workers ended.
fn why_of_workers(parts: &[Part]) -> WorkerWhy
    ensures { IsWhy result parts.now }
{
    for part in parts {
        match part.why {
            WorkerWhy::Fine => {}
            WorkerWhy::NoMemory => return WorkerWhy::NoMemory,
            WorkerWhy::Spent => return WorkerWhy::Spent,
        }
    }
    WorkerWhy::Fine
}

// How all ended.
fn way_of(porter: PorterWhy, dumper: DumperWhy, parts: &[Part]) -> Way
    ensures { IsEndOf result porter dumper parts.now }
{
    match why_of_workers(parts) {
        WorkerWhy::Fine => match dumper {
            DumperWhy::Fine => match porter {
                PorterWhy::Fine => Way::Stopped,
                PorterWhy::NoMemory => Way::Alone,
                PorterWhy::ListenFault => Way::Deaf,
                PorterWhy::Spent => Way::Spent,
            },
            DumperWhy::NoMemory => Way::Wanted,
            DumperWhy::Spent => Way::Spent,
        },
        WorkerWhy::NoMemory => Way::Wanted,
        WorkerWhy::Spent => Way::Spent,
    }
}

/// A seat for each part, all parts beside each other, and then the world with the whole history. There is room for the workers' parts. After a
/// refusal of memory nothing happened.
pub fn run<
    W: Threads + Wait + Sync,
    L: Links + Send,
    C: Clock + Send,
    D: Disk + Send,
    G: Gate + Sync,
    R: Rest + Sync,
>(
    rt: &W,
    alloc: Global,
    world: World,
    parts: Parts,
    workers: u8,
    store: &mut Store,
    links: &mut L,
    clock: &mut C,
    first: &mut D,
    second: &mut D,
    gate: &G,
    rest: &R,
) -> Result<(Way, World), AllocError>
    requires few { workers < 9 }
    requires none { parts.all.items ≡ [] }
    requires room { workers ≤ vec_capacity parts.all }
    requires fresh { (mounting : Note) × IsFresh mounting world }
    requires knows { Knows store.old world }
    requires mounted { D.tells ≡ true → (mounted : ℕ) × HasLog D.seen D.moment D.images D.faults store.old.log first.old second.old mounted world }
    ensures tells { L.tells links.new ≡ L.tells links.old }
    ensures none { OnErr result ((links.new ≡ links.old) × (clock.new ≡ clock.old) × (first.new ≡ first.old) × (second.new ≡ second.old)) }
    ensures knows { IfOk result (λ r. HasStopped r.0 → Knows store.new r.1) }
    ensures ran { IfOk result (λ r. HasRun D.tells D.seen D.moment D.images D.faults (L.tells links.old) (account (L.told links.old) (L.listening links.old) (C.answers clock.old)) (account (L.told links.new) (L.listening links.new) (C.answers clock.new)) workers r.0 store.old.log store.new.log first.old second.old first.new second.new world r.1) }
    ensures first_attached { D.attached first.new ≡ D.attached first.old }
    ensures second_attached { D.attached second.new ≡ D.attached second.old }
{
    let (turn, seat) = Turn::new(alloc, world)?;
    let mut seat = seat;
    let mut parts = parts;
    deal(&turn, &mut seat, &mut parts, workers);
    let other = turn.split(&mut seat, 9);
    let mut other = other;
    let (porter, dumper) = all_beside(
        rt, alloc, &turn, &mut seat, &mut other, &mut parts, store, links, clock, first, second,
        gate, rest,
    );
    let ended = way_of(porter, dumper, parts.all.as_slice());
    turn.join(&mut seat, other);
    take_in(&turn, &mut seat, parts);
    let world = turn.close(seat);
    // For contracts alone: each entry was lawful, and each note stands in its place.
    let _dead = world.is_dead();
    Ok((ended, world))
}
