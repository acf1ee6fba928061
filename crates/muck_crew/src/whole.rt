// A whole run of a server, with its last dump.
ghost use Rattle.std.specs.Prelude.{◌≡◌, ◌<◌, ◌≤◌, ℕ, [], true, Some, IfSome, IfNone, vec_capacity};
ghost use Rattle.muck_dumper.specs.inner.Between.{IsReady as HasLog};
ghost use Rattle.muck_model.specs.declared.note.Note.{Note};
ghost use Rattle.muck_porter.specs.inner.Kept.{account};
ghost use Rattle.muck_crew.specs.inner.Runs.{IsFresh};
ghost use Rattle.muck_crew.specs.inner.Wholes.{HasServed};

use crate::finishing::finish;
use crate::seats::Parts;
use crate::serving::run;
use muck_disk::Disk;
use muck_dumper::Store;
use muck_io::{Clock, Gate, Rest};
use muck_links::Links;
use muck_log::Log;
use muck_machine::World;
use muck_why::Why;
use std::alloc::Global;
use std::sync::Wait;
use std::thread::Threads;

/// Serves links that listen, until the run is over, and makes the last dump. Nothing happened where it answers `None`, for want of memory.
pub fn serve_links<
    W: Threads + Wait + Sync,
    L: Links + Send,
    C: Clock + Send,
    D: Disk + Send,
    G: Gate + Sync,
    R: Rest + Sync,
>(
    rt: &W,
    alloc: Global,
    world: World,
    parts: Parts,
    workers: u8,
    log: Log,
    links: &mut L,
    clock: &mut C,
    first: &mut D,
    second: &mut D,
    gate: &G,
    rest: &R,
) -> Option<(Why, World)>
    requires few { workers < 9 }
    requires none { parts.all.items ≡ [] }
    requires room { workers ≤ vec_capacity parts.all }
    requires fresh { (mounting : Note) × IsFresh mounting world }
    requires mounted { D.tells ≡ true → (mounted : ℕ) × HasLog D.seen D.moment D.images D.faults (Some log) first.old second.old mounted world }
    ensures tells { L.tells links.new ≡ L.tells links.old }
    ensures none { IfNone result ((links.new ≡ links.old) × (clock.new ≡ clock.old) × (first.new ≡ first.old) × (second.new ≡ second.old)) }
    ensures served { IfSome result (λ r. HasServed D.tells D.seen D.moment D.images D.faults (L.tells links.old) (account (L.told links.old) (L.listening links.old) (C.answers clock.old)) (account (L.told links.new) (L.listening links.new) (C.answers clock.new)) workers r.0 (Some log) first.old second.old first.new second.new world r.1) }
    ensures first_attached { D.attached first.new ≡ D.attached first.old }
    ensures second_attached { D.attached second.new ≡ D.attached second.old }
{
    let mut store = Store::new(log);
    match run(
        rt, alloc, world, parts, workers, &mut store, links, clock, first, second, gate, rest,
    ) {
        Ok((way, world)) => {
            let mut world = world;
            let why = finish(alloc, way, &mut world, &mut store, first, second, gate);
            Some((why, world))
        }
        Err(_) => None,
    }
}
