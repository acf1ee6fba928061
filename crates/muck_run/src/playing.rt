// A run of a script: what it makes happen in the world, and what is written of it.
ghost use Rattle.std.specs.Prelude.{◌≡◌, ◌<◌, ◌≤◌, IfOk, OnOk, IsErrOf, OnErr, ◌||◌, is_some, length, vec_len, true, false, Option, None, List, ℕ};
ghost use Rattle.muck_io.specs.Faults.{Rose};
ghost use Rattle.spec_events.specs.Histories.{now};
ghost use Rattle.spec_live.specs.Connections.{connections_most};
ghost use Rattle.muck_script.specs.Story.{acted, turns, turns_most, queue_taken, connection_parted, plain_part, both_parts, served, asks_dump, asked_dump, line_story, lines_story};
ghost use Rattle.spec_dumps.specs.inner.Holding.{Quietly, Rests};
ghost use Rattle.spec_events.specs.World.{connection};
ghost use Rattle.muck_dumping.specs.inner.Between.{Knows};
ghost use Rattle.muck_run.specs.inner.Dumps.{Held, IsNotedOn};
ghost use Rattle.muck_run.specs.inner.Opens.{asks_within, Opens};
ghost use Rattle.muck_run.specs.inner.Plays.{PlaysOrBreaks};

use crate::dumping::{Store, dump};
use muck_disk::Disk;
use muck_dumping::World;
use muck_io::{Sink, WriteFailed, write_all};
use muck_model::NoMemory;
use muck_script::{Act, farewell_text, lines_text, settle};
use std::alloc::{AllocError, Global};

/// Why a run broke off.
#[derive(Clone, Copy, Debug, PartialEq, Eq)]
pub enum RunFault {
    NoMemory,
    WriteFault,
}

/// Room for a whole queue.
pub fn buffer(alloc: Global) -> Result<Vec<u8>, AllocError>
    ensures { IfOk result (λ buf. 131090 ≤ vec_len buf) }
{
    vec![in alloc; 0u8; 131_090]
}

// Takes the turns of lines and processes; nothing is written of it.
fn turn(world: &mut World) -> Result<(), RunFault>
    requires { (now world.old).dead ≡ false }
    ensures plays { (o : Option (List ℕ)) → PlaysOrBreaks (plain_part (turns turns_most)) world.old world.new o o result }
    ensures quiet { Quietly world.old world.new }
    ensures memory { OnErr result (result ≡ Err RunFault.NoMemory) }
{
    match settle(world) {
        Ok(_) => Ok(()),
        Err(NoMemory) => Err(RunFault::NoMemory),
    }
}

// Takes a connection's queue and writes its lines.
fn take_queue<K: Sink>(
    alloc: Global,
    world: &mut World,
    d: u32,
    buf: &mut [u8],
    out: &mut K,
) -> Result<(), RunFault>
    requires room { 131090 ≤ length buf.old }
    requires alive { (now world.old).dead ≡ false }
    ensures plays { PlaysOrBreaks (plain_part (queue_taken d)) world.old world.new (K.written out.old) (K.written out.new) result }
    ensures quiet { Quietly world.old world.new }
    ensures fine { OnOk result (K.faults out.new ≡ K.faults out.old) }
    ensures later { K.faults out.old ≤ K.faults out.new }
    ensures write { IsErrOf result RunFault.WriteFault → Rose (K.faults out.old) (K.faults out.new) }
    ensures memory { IsErrOf result RunFault.NoMemory → K.faults out.new ≡ K.faults out.old }
{
    if world.queued(d) == 0 {
        return Ok(());
    }
    let count = world.take(d, buf);
    match lines_text(alloc, d, &buf[..count]) {
        Ok(text) => match write_all(out, text.as_slice()) {
            Ok(()) => Ok(()),
            Err(WriteFailed) => Err(RunFault::WriteFault),
        },
        Err(NoMemory) => {
            world.died(0);
            Err(RunFault::NoMemory)
        }
    }
}

// Closes a connection that is leaving, and writes so.
fn part<K: Sink>(alloc: Global, world: &mut World, d: u32, out: &mut K) -> Result<(), RunFault>
    requires { (now world.old).dead ≡ false }
    ensures plays { PlaysOrBreaks (plain_part (connection_parted d)) world.old world.new (K.written out.old) (K.written out.new) result }
    ensures quiet { Quietly world.old world.new }
    ensures fine { OnOk result (K.faults out.new ≡ K.faults out.old) }
    ensures later { K.faults out.old ≤ K.faults out.new }
    ensures write { IsErrOf result RunFault.WriteFault → Rose (K.faults out.old) (K.faults out.new) }
    ensures memory { IsErrOf result RunFault.NoMemory → K.faults out.new ≡ K.faults out.old }
{
    if !world.leaving(d) {
        return Ok(());
    }
    match farewell_text(alloc, d) {
        Ok(farewell) => {
            match world.closed(d) {
                Ok(()) => {}
                Err(NoMemory) => return Err(RunFault::NoMemory),
            }
            match write_all(out, farewell.as_slice()) {
                Ok(()) => Ok(()),
                Err(WriteFailed) => Err(RunFault::WriteFault),
            }
        }
        Err(NoMemory) => {
            world.died(0);
            Err(RunFault::NoMemory)
        }
    }
}

// Closes a connection where it is there; where it is leaving that is written, and else nothing is.
fn close<K: Sink>(alloc: Global, world: &mut World, d: u32, out: &mut K) -> Result<(), RunFault>
    requires { (now world.old).dead ≡ false }
    ensures plays { PlaysOrBreaks (plain_part (acted (Act.Close d))) world.old world.new (K.written out.old) (K.written out.new) result }
    ensures quiet { Quietly world.old world.new }
    ensures fine { OnOk result (K.faults out.new ≡ K.faults out.old) }
    ensures later { K.faults out.old ≤ K.faults out.new }
    ensures write { IsErrOf result RunFault.WriteFault → Rose (K.faults out.old) (K.faults out.new) }
    ensures memory { IsErrOf result RunFault.NoMemory → K.faults out.new ≡ K.faults out.old }
{
    if world.leaving(d) {
        return part(alloc, world, d, out);
    }
    if !world.connected(d) {
        return Ok(());
    }
    match world.closed(d) {
        Ok(()) => Ok(()),
        Err(NoMemory) => Err(RunFault::NoMemory),
    }
}

/// What a line of the script asks for; only where it closes a connection that is leaving anything is written of it.
pub fn act<K: Sink>(
    alloc: Global,
    world: &mut World,
    act: &Act,
    out: &mut K,
) -> Result<(), RunFault>
    requires { (now world.old).dead ≡ false }
    ensures plays { PlaysOrBreaks (plain_part (acted act.now)) world.old world.new (K.written out.old) (K.written out.new) result }
    ensures quiet { Quietly world.old world.new }
    ensures fine { OnOk result (K.faults out.new ≡ K.faults out.old) }
    ensures later { K.faults out.old ≤ K.faults out.new }
    ensures write { IsErrOf result RunFault.WriteFault → Rose (K.faults out.old) (K.faults out.new) }
    ensures memory { IsErrOf result RunFault.NoMemory → K.faults out.new ≡ K.faults out.old }
{
    match act {
        Act::Nothing | Act::Dump => Ok(()),
        Act::Open(d) => match world.opened(*d) {
            Ok(_) => Ok(()),
            Err(NoMemory) => Err(RunFault::NoMemory),
        },
        Act::Send(d, text) => match text.copy(alloc) {
            Ok(text) => match world.input(*d, text) {
                Ok(_) => Ok(()),
                Err(NoMemory) => Err(RunFault::NoMemory),
            },
            Err(NoMemory) => {
                world.died(0);
                Err(RunFault::NoMemory)
            }
        },
        Act::Close(d) => close(alloc, world, *d, out),
        Act::Wait(seconds) => {
            let then = world.now().saturating_add(*seconds);
            world.moment(then);
            Ok(())
        }
    }
}

// Takes and writes a connection's queue, and closes it where it is leaving.
fn serve_one<K: Sink>(
    alloc: Global,
    world: &mut World,
    d: u32,
    buf: &mut [u8],
    out: &mut K,
) -> Result<(), RunFault>
    requires room { 131090 ≤ length buf.old }
    requires alive { (now world.old).dead ≡ false }
    ensures plays { PlaysOrBreaks (both_parts (plain_part (queue_taken d)) (plain_part (connection_parted d))) world.old world.new (K.written out.old) (K.written out.new) result }
    ensures quiet { Quietly world.old world.new }
    ensures fine { OnOk result (K.faults out.new ≡ K.faults out.old) }
    ensures later { K.faults out.old ≤ K.faults out.new }
    ensures write { IsErrOf result RunFault.WriteFault → Rose (K.faults out.old) (K.faults out.new) }
    ensures memory { IsErrOf result RunFault.NoMemory → K.faults out.new ≡ K.faults out.old }
{
    match take_queue(alloc, world, d, buf, out) {
        Ok(()) => part(alloc, world, d, out),
        Err(fault) => Err(fault),
    }
}

// Nobody is there above the greatest number that a line has asked for. (The world tells that what happened in it was lawful.)
fn nobody_above(world: &World, most: u32)
    requires opened { Opens most world.now }
    ensures { (d : ℕ) → most < d → is_some (connection d (now world.now)) ≡ false }
{
    let _ = world.is_dead();
}

/// Serves each connection in rising order; none is above `most`.
pub fn serve_all<K: Sink>(
    alloc: Global,
    world: &mut World,
    most: u32,
    buf: &mut [u8],
    out: &mut K,
) -> Result<(), RunFault>
    requires room { 131090 ≤ length buf.old }
    requires alive { (now world.old).dead ≡ false }
    requires opened { Opens most world.old }
    ensures plays { PlaysOrBreaks (served connections_most 1) world.old world.new (K.written out.old) (K.written out.new) result }
    ensures quiet { Quietly world.old world.new }
    ensures fine { OnOk result (K.faults out.new ≡ K.faults out.old) }
    ensures later { K.faults out.old ≤ K.faults out.new }
    ensures write { IsErrOf result RunFault.WriteFault → Rose (K.faults out.old) (K.faults out.new) }
    ensures memory { IsErrOf result RunFault.NoMemory → K.faults out.new ≡ K.faults out.old }
{
    for d in 1..most.min(256) + 1 {
        match serve_one(alloc, world, d, buf, out) {
            Ok(()) => {}
            Err(fault) => return Err(fault),
        }
    }
    nobody_above(world, most);
    Ok(())
}

// Does what a line of the script asks for, and the turns that follow.
fn act_and_turn<K: Sink>(
    alloc: Global,
    world: &mut World,
    asked: &Act,
    out: &mut K,
) -> Result<(), RunFault>
    requires { (now world.old).dead ≡ false }
    ensures plays { PlaysOrBreaks (both_parts (plain_part (acted asked.now)) (plain_part (turns turns_most))) world.old world.new (K.written out.old) (K.written out.new) result }
    ensures quiet { Quietly world.old world.new }
    ensures fine { OnOk result (K.faults out.new ≡ K.faults out.old) }
    ensures later { K.faults out.old ≤ K.faults out.new }
    ensures write { IsErrOf result RunFault.WriteFault → Rose (K.faults out.old) (K.faults out.new) }
    ensures memory { IsErrOf result RunFault.NoMemory → K.faults out.new ≡ K.faults out.old }
{
    match act(alloc, world, asked, out) {
        Ok(()) => turn(world),
        Err(fault) => Err(fault),
    }
}

/// The greatest number of a connection that the lines so far have asked for, with this line.
pub fn greatest(most: u32, line: &Act) -> u32
    ensures later { most ≤ result }
    ensures within { asks_within result line.now ≡ true }
{
    match line {
        Act::Open(d) => most.max(*d),
        _ => most,
    }
}

// Whether a line of the script asks for a dump.
fn asks(line: &Act) -> bool
    ensures { result ≡ asks_dump line.now }
{
    match line {
        Act::Dump => true,
        _ => false,
    }
}

// Whether a dump is to be made behind a line: it asks for one, or a connection has asked.
fn is_due(world: &World, line: &Act) -> bool
    requires { (now world.now).dead ≡ false }
    ensures { result ≡ (asks_dump line.now || is_some (now world.now).dumps.asked) }
{
    asks(line) || world.dump_asked()
}

/// Makes a dump, where the line asks for one or a connection does.
pub fn make_asked<D: Disk>(
    alloc: Global,
    world: &mut World,
    store: &mut Store,
    first: &mut D,
    second: &mut D,
    line: &Act,
) -> Result<(), RunFault>
    requires alive { (now world.old).dead ≡ false }
    requires idle { (now world.old).dumps.running ≡ None }
    requires knows { Knows store.old world.old }
    requires mounted { D.tells ≡ true → (mounted : ℕ) × Rests D.seen D.moment D.images D.faults store.old.log first.old second.old mounted world.old }
    ensures plays { (o : Option (List ℕ)) → PlaysOrBreaks (asked_dump line.now) world.old world.new o o result }
    ensures notes { IsNotedOn world.old world.new }
    ensures memory { OnErr result (result ≡ Err RunFault.NoMemory) }
    ensures idle { OnOk result ((now world.new).dumps.running ≡ None) }
    ensures knows { OnOk result (Knows store.new world.new) }
    ensures kept { (mounted : ℕ) → D.tells ≡ true → Rests D.seen D.moment D.images D.faults store.old.log first.old second.old mounted world.old
        → Held D.seen D.moment D.images D.faults store.new.log first.new second.new mounted world.new result }
    ensures first_later { D.faults first.old ≤ D.faults first.new }
    ensures second_later { D.faults second.old ≤ D.faults second.new }
    ensures first_attached { D.attached first.new ≡ D.attached first.old }
    ensures second_attached { D.attached second.new ≡ D.attached second.old }
{
    if !is_due(world, line) {
        return Ok(());
    }
    dump(alloc, world, store, first, second)?;
    Ok(())
}

// Does a line of the script, and what follows it; no connection is above `most`.
fn play_line<K: Sink, D: Disk>(
    alloc: Global,
    world: &mut World,
    store: &mut Store,
    first: &mut D,
    second: &mut D,
    line: &Act,
    most: u32,
    buf: &mut [u8],
    out: &mut K,
) -> Result<(), RunFault>
    requires room { 131090 ≤ length buf.old }
    requires alive { (now world.old).dead ≡ false }
    requires idle { (now world.old).dumps.running ≡ None }
    requires knows { Knows store.old world.old }
    requires mounted { D.tells ≡ true → (mounted : ℕ) × Rests D.seen D.moment D.images D.faults store.old.log first.old second.old mounted world.old }
    requires opened { Opens most world.old }
    requires asks { asks_within most line.now ≡ true }
    ensures plays { PlaysOrBreaks (line_story line.now) world.old world.new (K.written out.old) (K.written out.new) result }
    ensures notes { IsNotedOn world.old world.new }
    ensures fine { OnOk result (K.faults out.new ≡ K.faults out.old) }
    ensures later { K.faults out.old ≤ K.faults out.new }
    ensures write { IsErrOf result RunFault.WriteFault → Rose (K.faults out.old) (K.faults out.new) }
    ensures memory { IsErrOf result RunFault.NoMemory → K.faults out.new ≡ K.faults out.old }
    ensures idle { (result ≡ Err RunFault.NoMemory → ⊥) → (now world.new).dumps.running ≡ None }
    ensures knows { (result ≡ Err RunFault.NoMemory → ⊥) → Knows store.new world.new }
    ensures kept { (mounted : ℕ) → D.tells ≡ true → Rests D.seen D.moment D.images D.faults store.old.log first.old second.old mounted world.old
        → Held D.seen D.moment D.images D.faults store.new.log first.new second.new mounted world.new result }
    ensures first_later { D.faults first.old ≤ D.faults first.new }
    ensures second_later { D.faults second.old ≤ D.faults second.new }
    ensures opened { OnOk result (Opens most world.new) }
    ensures first_attached { D.attached first.new ≡ D.attached first.old }
    ensures second_attached { D.attached second.new ≡ D.attached second.old }
{
    act_and_turn(alloc, world, line, out)?;
    make_asked(alloc, world, store, first, second, line)?;
    serve_all(alloc, world, most, buf, out)
}

/// Plays the lines of a script into the world: what each of them asks for happens, the lines that wait are done and the processes run,
/// a dump is made where one is asked, each queue is taken and written, and behind the last line the world is halted. `buf` has
/// room for a whole queue.
///
/// After `NoMemory` the world is dead, and after `WriteFault` it is as the fault left it; in both cases the world's
/// history is a front of the script's story, with `Died` behind it after `NoMemory`.
pub fn play<K: Sink, D: Disk>(
    alloc: Global,
    world: &mut World,
    store: &mut Store,
    first: &mut D,
    second: &mut D,
    acts: &[Act],
    buf: &mut [u8],
    out: &mut K,
) -> Result<(), RunFault>
    requires room { 131090 ≤ length buf.old }
    requires alive { (now world.old).dead ≡ false }
    requires idle { (now world.old).dumps.running ≡ None }
    requires knows { Knows store.old world.old }
    requires mounted { D.tells ≡ true → (mounted : ℕ) × Rests D.seen D.moment D.images D.faults store.old.log first.old second.old mounted world.old }
    requires opened { Opens 0 world.old }
    ensures plays { PlaysOrBreaks (lines_story acts.now) world.old world.new (K.written out.old) (K.written out.new) result }
    ensures notes { IsNotedOn world.old world.new }
    ensures fine { OnOk result (K.faults out.new ≡ K.faults out.old) }
    ensures later { K.faults out.old ≤ K.faults out.new }
    ensures write { IsErrOf result RunFault.WriteFault → Rose (K.faults out.old) (K.faults out.new) }
    ensures memory { IsErrOf result RunFault.NoMemory → K.faults out.new ≡ K.faults out.old }
    ensures idle { (result ≡ Err RunFault.NoMemory → ⊥) → (now world.new).dumps.running ≡ None }
    ensures knows { (result ≡ Err RunFault.NoMemory → ⊥) → Knows store.new world.new }
    ensures kept { (mounted : ℕ) → D.tells ≡ true → Rests D.seen D.moment D.images D.faults store.old.log first.old second.old mounted world.old
        → Held D.seen D.moment D.images D.faults store.new.log first.new second.new mounted world.new result }
    ensures first_later { D.faults first.old ≤ D.faults first.new }
    ensures second_later { D.faults second.old ≤ D.faults second.new }
    ensures first_attached { D.attached first.new ≡ D.attached first.old }
    ensures second_attached { D.attached second.new ≡ D.attached second.old }
{
    let mut most = 0;
    for act in acts {
        if world.is_stopping() {
            return Ok(());
        }
        most = greatest(most, act);
        play_line(alloc, world, store, first, second, act, most, buf, out)?;
    }
    if !world.is_stopping() {
        world.halt();
    }
    Ok(())
}
