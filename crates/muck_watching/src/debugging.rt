// A script of `debug` is read, and run on the world of a store.
ghost use Rattle.std.specs.Prelude.{◌≡◌, ◌⊎◌, ◌≤◌, true, IfOk, IfErr, IsErrOf, None};
ghost use Rattle.muck_io.specs.Faults.{Rose};
ghost use Rattle.muck_log.specs.World.{IsFine};
ghost use Rattle.muck_log.specs.inner.Mount.{IsMountedAs};
ghost use Rattle.spec_dumps.specs.Fronts.{file_most};
ghost use Rattle.muck_debugging.specs.Seen.{plain_acts};
ghost use Rattle.muck_run.specs.inner.Ends.{MayEnd, booted_from, HasPlayed, NeverPlayed};
ghost use Rattle.muck_watching.specs.inner.Seen.{IsDebugWhy};
ghost use Rattle.muck_watching.specs.Debugged.{HasReadDebugScript, HasWrittenSeen, DebugDone};

use crate::watching::play_seen;
use muck_debugging::{DebugAct, DebugScript, read_debug};
use muck_disk::Disk;
use muck_io::{ReadFault, Sink, Source, read_all};
use muck_log::Log;
use muck_model::Tale;
use muck_run::{RunFault, Store, begin, last_dump, mount, stop};
use muck_script::{SCRIPT_MOST, ScriptFault};
use muck_why::Why;
use muf_debug::Tracer;
use std::alloc::Global;

// Reads the script whole.
fn read_script<S: Source>(alloc: Global, script: &mut S) -> Result<DebugScript, Why>
    ensures read { IfOk result (λ acts. HasReadDebugScript S.left S.faults script.old script.new acts) }
    ensures why { IfErr result (IsDebugWhy (S.left script.old)) }
    ensures cause { IsErrOf result Why.ReadFault → Rose (S.faults script.old) (S.faults script.new) }
    ensures stands { (IsErrOf result Why.ReadFault → ⊥) → S.faults script.new ≡ S.faults script.old }
{
    let bytes = match read_all(alloc, script, SCRIPT_MOST + 1) {
        Ok(bytes) => bytes,
        Err(ReadFault::Failed) => return Err(Why::ReadFault),
        Err(ReadFault::NoMemory) => return Err(Why::NoMemory),
    };
    match read_debug(alloc, bytes.as_slice()) {
        Ok(acts) => Ok(acts),
        Err(ScriptFault::BadScript { line }) => Err(Why::BadScript { line }),
        Err(ScriptFault::NoMemory) => Err(Why::NoMemory),
    }
}

/// Mounts the store of this name, reads the script whole, runs it on the world of the store with a tracer, and writes its transcript with the lines of the
/// units that are shown. In the end the world is dumped. Answers why it ended, with what happened in the world.
///
/// The answers come as those of `run` do, but that `BadScript` speaks of the grammar of `debug`.
pub fn debug<S: Source, K: Sink, D: Disk>(
    alloc: Global,
    name: &str,
    script: &mut S,
    out: &mut K,
    first: &mut D,
    second: &mut D,
) -> (Why, Tale)
    ensures done { DebugDone S.left S.faults K.written K.faults D.tells D.attached D.seen D.moment D.images D.faults name.now result.0 script.old script.new out.old out.new first.old second.old first.new second.new result.1.entries result.1.notes }
{
    let log = match mount(alloc, name, first, second) {
        Ok(log) => log,
        Err(why) => return (why, Tale::none()),
    };
    match read_script(alloc, script) {
        Ok(acts) => debug_acts(alloc, log, acts.as_slice(), out, first, second),
        Err(why) => (why, Tale::none()),
    }
}

// Runs a script that was read on the world of the store, and dumps that world; where the sink fails the world is stopped.
fn debug_acts<K: Sink, D: Disk>(
    alloc: Global,
    log: Log,
    acts: &[DebugAct],
    out: &mut K,
    first: &mut D,
    second: &mut D,
) -> (Why, Tale)
    requires mounted { D.tells ≡ true → IsMountedAs D.seen D.moment D.images file_most log first.old second.old }
    requires fine { IsFine log.chosen.held.world }
    ensures ends { NeverPlayed result.0 out.old out.new first.old second.old first.new second.new result.1.entries
        ⊎ (HasPlayed (λ _. None) K.faults D.tells D.seen D.moment D.images D.faults log result.0 (plain_acts acts.now) out.old out.new first.old second.old first.new second.new result.1.entries result.1.notes
        × HasWrittenSeen (booted_from log.chosen.held.world) result.0 acts.now (K.written out.old) (K.written out.new) result.1.entries) }
    ensures why { MayEnd D.tells result.0 }
    ensures write { result.0 ≡ Why.WriteFault → Rose (K.faults out.old) (K.faults out.new) }
    ensures stands { (result.0 ≡ Why.WriteFault → ⊥) → K.faults out.new ≡ K.faults out.old }
    ensures first_later { D.faults first.old ≤ D.faults first.new }
    ensures second_later { D.faults second.old ≤ D.faults second.new }
    ensures cause { result.0 ≡ Why.DiskFault → Rose (D.faults first.old) (D.faults first.new) ⊎ Rose (D.faults second.old) (D.faults second.new) }
    ensures first_attached { D.attached first.new ≡ D.attached first.old }
    ensures second_attached { D.attached second.new ≡ D.attached second.old }
{
    let Ok(mut tracer) = Tracer::new(alloc) else {
        return (Why::NoMemory, Tale::none());
    };
    let Ok((mut world, mut buf)) = begin(alloc, &log, first, second) else {
        return (Why::NoMemory, Tale::none());
    };
    let mut store = Store::new(log);
    match play_seen(
        alloc,
        &mut world,
        &mut store,
        first,
        second,
        &mut tracer,
        acts,
        &mut buf,
        out,
    ) {
        Ok(()) => {
            let why = last_dump(alloc, &mut world, &mut store, first, second);
            (why, world.into_tale())
        }
        Err(RunFault::NoMemory) => (Why::NoMemory, world.into_tale()),
        Err(RunFault::WriteFault) => {
            stop(&mut world);
            let _ = last_dump(alloc, &mut world, &mut store, first, second);
            (Why::WriteFault, world.into_tale())
        }
    }
}
