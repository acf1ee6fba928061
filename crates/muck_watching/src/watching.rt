// A run of a script of `debug`: what such a run of `run` does, with a tracer that is told of each unit, and whose lines are written.
ghost use Rattle.std.specs.Prelude.{◌≡◌, ◌≤◌, OnOk, IfSome, IsErrOf, OnErr, length, option_copied, true, false, Option, None, Err, List, ℕ};
ghost use Rattle.muck_io.specs.Faults.{Rose};
ghost use Rattle.spec_events.specs.Histories.{now};
ghost use Rattle.muck_script.specs.Story.{acted, turns, turns_most, plain_part, both_parts, line_story};
ghost use Rattle.spec_dumps.specs.inner.Holding.{Quietly, Rests};
ghost use Rattle.muck_run.specs.inner.Between.{Knows};
ghost use Rattle.muf_debug.specs.Shown.{TellsSo};
ghost use Rattle.muf_debug.specs.Watching.{SeesAll};
ghost use Rattle.muck_debugging.specs.Seen.{views_in};
ghost use Rattle.muck_run.specs.inner.Dumps.{Held, IsNotedOn};
ghost use Rattle.muck_run.specs.inner.Opens.{asks_within, Opens};
ghost use Rattle.muck_run.specs.inner.Plays.{PlaysOrBreaks};
ghost use Rattle.muck_watching.specs.inner.Seen.{IsReady, Shows, PlaysOrBreaksSeen, PlaysOrBreaksLines, plain_of, nothing, act_part, commanded};

use muck_debugging::{DebugAct, settle_seen, units_text};
use muck_disk::Disk;
use muck_io::{Sink, WriteFailed, write_all};
use muck_model::NoMemory;
use muck_run::{RunFault, Store, World, act, greatest, make_asked, serve_all};
use muck_script::Act;
use muf_debug::Tracer;
use std::alloc::Global;

// Takes the turns of lines and processes, of whose units the tracer is told; nothing is written of it.
fn turn(world: &mut World, tracer: &mut Tracer) -> Result<(), RunFault>
    requires { (now world.old).dead ≡ false }
    ensures plays { (o : Option (List ℕ)) → PlaysOrBreaks (plain_part (turns turns_most)) world.old world.new o o result }
    ensures seen { OnOk result (SeesAll TellsSo (views_in (now world.old) (turns turns_most (now world.old))) tracer.old tracer.new) }
    ensures quiet { Quietly world.old world.new }
    ensures memory { OnErr result (result ≡ Err RunFault.NoMemory) }
{
    match settle_seen(world, tracer) {
        Ok(_) => Ok(()),
        Err(NoMemory) => Err(RunFault::NoMemory),
    }
}

// Writes the lines that the tracer kept; where memory was wanted for one, that is met here.
fn show<K: Sink>(
    alloc: Global,
    world: &mut World,
    tracer: &mut Tracer,
    out: &mut K,
) -> Result<(), RunFault>
    ensures shows { Shows tracer.old tracer.new world.old world.new (K.written out.old) (K.written out.new) result }
    ensures fine { OnOk result (K.faults out.new ≡ K.faults out.old) }
    ensures later { K.faults out.old ≤ K.faults out.new }
    ensures write { IsErrOf result RunFault.WriteFault → Rose (K.faults out.old) (K.faults out.new) }
    ensures memory { IsErrOf result RunFault.NoMemory → K.faults out.new ≡ K.faults out.old }
{
    let Ok(lines) = tracer.lines() else {
        world.died(0);
        return Err(RunFault::NoMemory);
    };
    let Ok(text) = units_text(alloc, &lines) else {
        world.died(0);
        return Err(RunFault::NoMemory);
    };
    match write_all(out, text.as_slice()) {
        Ok(()) => Ok(()),
        Err(WriteFailed) => Err(RunFault::WriteFault),
    }
}

// Takes the turns, and writes what the tracer kept of them.
fn turn_and_show<K: Sink>(
    alloc: Global,
    world: &mut World,
    tracer: &mut Tracer,
    out: &mut K,
) -> Result<(), RunFault>
    requires alive { (now world.old).dead ≡ false }
    requires ready { IsReady tracer.old }
    ensures plays { PlaysOrBreaksSeen (plain_part (turns turns_most)) tracer.old tracer.new world.old world.new (K.written out.old) (K.written out.new) result }
    ensures quiet { Quietly world.old world.new }
    ensures fine { OnOk result (K.faults out.new ≡ K.faults out.old) }
    ensures later { K.faults out.old ≤ K.faults out.new }
    ensures write { IsErrOf result RunFault.WriteFault → Rose (K.faults out.old) (K.faults out.new) }
    ensures memory { IsErrOf result RunFault.NoMemory → K.faults out.new ≡ K.faults out.old }
{
    match turn(world, tracer) {
        Ok(()) => show(alloc, world, tracer, out),
        Err(fault) => Err(fault),
    }
}

// Does what a line of the script asks for, and the turns that follow.
fn act_and_turn<K: Sink>(
    alloc: Global,
    world: &mut World,
    tracer: &mut Tracer,
    asked: &Act,
    out: &mut K,
) -> Result<(), RunFault>
    requires alive { (now world.old).dead ≡ false }
    requires ready { IsReady tracer.old }
    ensures plays { PlaysOrBreaksSeen (both_parts (plain_part (acted asked.now)) (plain_part (turns turns_most))) tracer.old tracer.new world.old world.new (K.written out.old) (K.written out.new) result }
    ensures quiet { Quietly world.old world.new }
    ensures fine { OnOk result (K.faults out.new ≡ K.faults out.old) }
    ensures later { K.faults out.old ≤ K.faults out.new }
    ensures write { IsErrOf result RunFault.WriteFault → Rose (K.faults out.old) (K.faults out.new) }
    ensures memory { IsErrOf result RunFault.NoMemory → K.faults out.new ≡ K.faults out.old }
{
    match act(alloc, world, asked, out) {
        Ok(()) => turn_and_show(alloc, world, tracer, out),
        Err(fault) => Err(fault),
    }
}

// Does a line that `run` knows too, and what follows it; no connection is above `most`.
fn play_line<K: Sink, D: Disk>(
    alloc: Global,
    world: &mut World,
    store: &mut Store,
    first: &mut D,
    second: &mut D,
    tracer: &mut Tracer,
    line: &Act,
    most: u32,
    buf: &mut [u8],
    out: &mut K,
) -> Result<(), RunFault>
    requires room { 131090 ≤ length buf.old }
    requires alive { (now world.old).dead ≡ false }
    requires idle { (now world.old).dumps.running ≡ None }
    requires knows { Knows store.old world.old }
    requires mounted { D.tells ≡ true → (mounted : ℕ) × Rests D.seen D.moment D.images D.faults store.old.log first.old second.old mounted world.old }
    requires opened { Opens most world.old }
    requires asks { asks_within most line.now ≡ true }
    requires ready { IsReady tracer.old }
    ensures plays { PlaysOrBreaksSeen (line_story line.now) tracer.old tracer.new world.old world.new (K.written out.old) (K.written out.new) result }
    ensures notes { IsNotedOn world.old world.new }
    ensures fine { OnOk result (K.faults out.new ≡ K.faults out.old) }
    ensures later { K.faults out.old ≤ K.faults out.new }
    ensures write { IsErrOf result RunFault.WriteFault → Rose (K.faults out.old) (K.faults out.new) }
    ensures memory { IsErrOf result RunFault.NoMemory → K.faults out.new ≡ K.faults out.old }
    ensures idle { (result ≡ Err RunFault.NoMemory → ⊥) → (now world.new).dumps.running ≡ None }
    ensures knows { (result ≡ Err RunFault.NoMemory → ⊥) → Knows store.new world.new }
    ensures kept { (mounted : ℕ) → D.tells ≡ true → Rests D.seen D.moment D.images D.faults store.old.log first.old second.old mounted world.old
        → Held D.seen D.moment D.images D.faults store.new.log first.new second.new mounted world.new result }
    ensures first_later { D.faults first.old ≤ D.faults first.new }
    ensures second_later { D.faults second.old ≤ D.faults second.new }
    ensures opened { OnOk result (Opens most world.new) }
    ensures first_attached { D.attached first.new ≡ D.attached first.old }
    ensures second_attached { D.attached second.new ≡ D.attached second.old }
{
    act_and_turn(alloc, world, tracer, line, out)?;
    make_asked(alloc, world, store, first, second, line)?;
    serve_all(alloc, world, most, buf, out)
}

// What a line asks of `run`.
fn plain_of(act: &DebugAct) -> Option<&Act>
    ensures { option_copied result ≡ plain_of act.now }
{
    match act {
        DebugAct::Plain(line) => Some(line),
        DebugAct::Break(_, _) | DebugAct::Clear(_, _) | DebugAct::Trace(_) => None,
    }
}

// Does one of the four lines; where memory is wanted for a break the world is dead.
fn command(world: &mut World, tracer: &mut Tracer, act: &DebugAct) -> Result<(), RunFault>
    requires { (now world.old).dead ≡ false }
    ensures plays { (o : Option (List ℕ)) → PlaysOrBreaksSeen nothing (commanded act.now tracer.old) tracer.new world.old world.new o o result }
    ensures quiet { Quietly world.old world.new }
    ensures memory { OnErr result (result ≡ Err RunFault.NoMemory) }
{
    match act {
        DebugAct::Plain(_) => Ok(()),
        DebugAct::Break(program, line) => match tracer.add_break(*program, *line) {
            Ok(_) => Ok(()),
            Err(NoMemory) => {
                world.died(0);
                Err(RunFault::NoMemory)
            }
        },
        DebugAct::Clear(program, line) => {
            tracer.clear_break(*program, *line);
            Ok(())
        }
        DebugAct::Trace(on) => {
            tracer.trace(*on);
            Ok(())
        }
    }
}

// The greatest number of a connection that the lines so far have asked for, with this line.
fn greatest_of(most: u32, act: &DebugAct) -> u32
    ensures later { most ≤ result }
    ensures within { IfSome (plain_of act.now) (λ line. asks_within result line ≡ true) }
{
    match plain_of(act) {
        Some(line) => greatest(most, line),
        None => most,
    }
}

// Does a line, and what follows it; no connection is above `most`.
fn play_act<K: Sink, D: Disk>(
    alloc: Global,
    world: &mut World,
    store: &mut Store,
    first: &mut D,
    second: &mut D,
    tracer: &mut Tracer,
    act: &DebugAct,
    most: u32,
    buf: &mut [u8],
    out: &mut K,
) -> Result<(), RunFault>
    requires room { 131090 ≤ length buf.old }
    requires alive { (now world.old).dead ≡ false }
    requires idle { (now world.old).dumps.running ≡ None }
    requires knows { Knows store.old world.old }
    requires mounted { D.tells ≡ true → (mounted : ℕ) × Rests D.seen D.moment D.images D.faults store.old.log first.old second.old mounted world.old }
    requires opened { Opens most world.old }
    requires asks { IfSome (plain_of act.now) (λ line. asks_within most line ≡ true) }
    requires ready { IsReady tracer.old }
    ensures plays { PlaysOrBreaksSeen (act_part (plain_of act.now)) (commanded act.now tracer.old) tracer.new world.old world.new (K.written out.old) (K.written out.new) result }
    ensures notes { IsNotedOn world.old world.new }
    ensures fine { OnOk result (K.faults out.new ≡ K.faults out.old) }
    ensures later { K.faults out.old ≤ K.faults out.new }
    ensures write { IsErrOf result RunFault.WriteFault → Rose (K.faults out.old) (K.faults out.new) }
    ensures memory { IsErrOf result RunFault.NoMemory → K.faults out.new ≡ K.faults out.old }
    ensures idle { (result ≡ Err RunFault.NoMemory → ⊥) → (now world.new).dumps.running ≡ None }
    ensures knows { (result ≡ Err RunFault.NoMemory → ⊥) → Knows store.new world.new }
    ensures kept { (mounted : ℕ) → D.tells ≡ true → Rests D.seen D.moment D.images D.faults store.old.log first.old second.old mounted world.old
        → Held D.seen D.moment D.images D.faults store.new.log first.new second.new mounted world.new result }
    ensures first_later { D.faults first.old ≤ D.faults first.new }
    ensures second_later { D.faults second.old ≤ D.faults second.new }
    ensures opened { OnOk result (Opens most world.new) }
    ensures first_attached { D.attached first.new ≡ D.attached first.old }
    ensures second_attached { D.attached second.new ≡ D.attached second.old }
{
    match plain_of(act) {
        Some(line) => play_line(
            alloc, world, store, first, second, tracer, line, most, buf, out,
        ),
        None => command(world, tracer, act),
    }
}

/// Plays the lines of a script of `debug` into the world, as `play` plays those of a script of `run`; the tracer is told of each unit before it
/// runs, and what it keeps of a line's turns is written behind them. One of the four lines changes the tracer alone.
///
/// After `NoMemory` the world is dead, and after `WriteFault` it is as the fault left it.
pub fn play_seen<K: Sink, D: Disk>(
    alloc: Global,
    world: &mut World,
    store: &mut Store,
    first: &mut D,
    second: &mut D,
    tracer: &mut Tracer,
    acts: &[DebugAct],
    buf: &mut [u8],
    out: &mut K,
) -> Result<(), RunFault>
    requires room { 131090 ≤ length buf.old }
    requires alive { (now world.old).dead ≡ false }
    requires idle { (now world.old).dumps.running ≡ None }
    requires knows { Knows store.old world.old }
    requires mounted { D.tells ≡ true → (mounted : ℕ) × Rests D.seen D.moment D.images D.faults store.old.log first.old second.old mounted world.old }
    requires opened { Opens 0 world.old }
    requires ready { IsReady tracer.old }
    ensures plays { PlaysOrBreaksLines acts.now tracer.old world.old world.new (K.written out.old) (K.written out.new) result }
    ensures notes { IsNotedOn world.old world.new }
    ensures fine { OnOk result (K.faults out.new ≡ K.faults out.old) }
    ensures later { K.faults out.old ≤ K.faults out.new }
    ensures write { IsErrOf result RunFault.WriteFault → Rose (K.faults out.old) (K.faults out.new) }
    ensures memory { IsErrOf result RunFault.NoMemory → K.faults out.new ≡ K.faults out.old }
    ensures idle { (result ≡ Err RunFault.NoMemory → ⊥) → (now world.new).dumps.running ≡ None }
    ensures knows { (result ≡ Err RunFault.NoMemory → ⊥) → Knows store.new world.new }
    ensures kept { (mounted : ℕ) → D.tells ≡ true → Rests D.seen D.moment D.images D.faults store.old.log first.old second.old mounted world.old
        → Held D.seen D.moment D.images D.faults store.new.log first.new second.new mounted world.new result }
    ensures first_later { D.faults first.old ≤ D.faults first.new }
    ensures second_later { D.faults second.old ≤ D.faults second.new }
    ensures first_attached { D.attached first.new ≡ D.attached first.old }
    ensures second_attached { D.attached second.new ≡ D.attached second.old }
{
    let mut most = 0;
    for act in acts {
        if world.is_stopping() {
            return Ok(());
        }
        most = greatest_of(most, act);
        play_act(
            alloc, world, store, first, second, tracer, act, most, buf, out,
        )?;
    }
    if !world.is_stopping() {
        world.halt();
    }
    Ok(())
}
