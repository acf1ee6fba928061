// The drill: a fixed script on the starting world, of which a summary is written.
ghost use Rattle.std.specs.Prelude.{◌≡◌, ◌≤◌, ◌++◌, ◌∷◌, [], ℕ, IfOk, OnOk, OnErr, None, length};
ghost use Rattle.std.specs.Fmt.{decimal};
ghost use Rattle.std.specs.List.{filter};
ghost use Rattle.muck_io.specs.Faults.{Rose};
ghost use Rattle.spec_events.specs.Histories.{History};
ghost use Rattle.muck_dumping.specs.inner.Between.{Knows};
ghost use Rattle.muck_script.specs.declared.act.Act.TheVariants.{Send};
ghost use Rattle.muck_script.specs.Lines.{is_line_feed};
ghost use Rattle.muck_run.specs.Drill.{describing, round, rounds, drill_script, summary, HasDrilled};
ghost use Rattle.muck_run.specs.inner.Drills.{fresh, IsPlayedAs, IsDrilledAs, IsCutShort, IsDrillDead, MayDrill};

use crate::dumping::{FILE_MOST, Store};
use crate::playing::{RunFault, buffer, play};
use itoa::Buffer;
use muck_disk::{Disk, DiskFault};
use muck_dumping::World;
use muck_io::{MemSink, Sink, WriteFailed, write_all};
use muck_log::Log;
use muck_model::{Line, NoMemory, Tale};
use muck_script::Act;
use muck_why::Why;
use std::alloc::Global;

// A disk with an empty file, which no write reaches: in a drill no dump is asked, and one that were would fail.
#[derive(Drop)]
struct Nowhere {
    faults: u64,
}

impl Nowhere {
    fn fault(&mut self) -> DiskFault
        ensures rose { Rose self.old.faults self.new.faults }
        ensures later { self.old.faults ≤ self.new.faults }
    {
        self.faults = self.faults.saturating_add(1);
        DiskFault
    }
}

impl Disk for Nowhere {
    ghost use Rattle.std.specs.Prelude.{[], false, Option, None};

    ghost tells = { false };

    ghost attached = { λ _. None };

    ghost seen = { λ _. [] };

    ghost moment = { λ _. 0 };

    ghost images = { λ _ _ _. Unit {0} };

    ghost faults = { λ d. d.faults };

    ghost seen_left = { λ _ _. tt };

    fn attach(&mut self, _name: &str) -> Result<(), DiskFault> {
        Ok(())
    }

    fn size(&mut self) -> Result<u64, DiskFault> {
        Ok(0)
    }

    fn read(&mut self, _at: u64, _buf: &mut [u8]) -> Result<usize, DiskFault> {
        Ok(0)
    }

    fn write_at(&mut self, _at: u64, _bytes: &[u8]) -> Result<(), DiskFault> {
        Err(self.fault())
    }

    fn sync(&mut self) -> Result<(), DiskFault> {
        Ok(())
    }
}

// Some bytes, and a number behind them.
fn push_number(text: &mut Vec<u8>, lead: &[u8], n: u64) -> Result<(), NoMemory>
    ensures { OnOk result (text.new.items ≡ text.old.items ++ lead.now ++ decimal n) }
{
    let mut buffer = Buffer::new();
    text.extend_from_slice(lead)?;
    text.extend_from_slice(buffer.format(n).as_bytes())?;
    Ok(())
}

fn numbered(alloc: Global, lead: &[u8], n: u64) -> Result<Vec<u8>, NoMemory>
    ensures { IfOk result (λ text. text.items ≡ lead.now ++ decimal n) }
{
    let mut text = Vec::new(alloc);
    push_number(&mut text, lead, n)?;
    Ok(text)
}

// How the thing of this number is described.
fn describing(alloc: Global, n: u64) -> Result<Vec<u8>, NoMemory>
    ensures { IfOk result (λ text. text.items ≡ describing n) }
{
    let mut text = Vec::new(alloc);
    push_number(&mut text, b"@describe thing ", n)?;
    push_number(&mut text, b"=A thing of {add:", n)?;
    push_number(&mut text, b",", n)?;
    text.extend_from_slice(b"}.")?;
    Ok(text)
}

// This text is sent on the connection 1.
fn push_send(alloc: Global, acts: &mut Vec<Act>, text: &[u8]) -> Result<(), NoMemory>
    ensures { OnOk result (acts.new.items ≡ acts.old.items ++ Send 1 text.now ∷ []) }
{
    let Ok(line) = Line::new(alloc, text) else {
        return Err(NoMemory);
    };
    acts.push(Act::Send(1, line))?;
    Ok(())
}

// A line that ends with a number is sent.
fn push_numbered(alloc: Global, acts: &mut Vec<Act>, lead: &[u8], n: u64) -> Result<(), NoMemory>
    ensures { OnOk result (acts.new.items ≡ acts.old.items ++ Send 1 (lead.now ++ decimal n) ∷ []) }
{
    let text = numbered(alloc, lead, n)?;
    push_send(alloc, acts, &text)
}

fn push_round(alloc: Global, acts: &mut Vec<Act>, i: u64) -> Result<(), NoMemory>
    ensures { OnOk result (acts.new.items ≡ acts.old.items ++ round i) }
{
    push_numbered(alloc, acts, b"@dig Room ", i)?;
    push_numbered(alloc, acts, b"@create thing ", i)?;
    let text = describing(alloc, i)?;
    push_send(alloc, acts, &text)?;
    push_numbered(alloc, acts, b"look thing ", i)?;
    push_numbered(alloc, acts, b"drop thing ", i)?;
    Ok(())
}

fn push_rounds(alloc: Global, acts: &mut Vec<Act>, count: u64) -> Result<(), NoMemory>
    ensures { OnOk result (acts.new.items ≡ acts.old.items ++ rounds count) }
{
    for done in 0..count {
        push_round(alloc, acts, done + 1)?;
    }
    Ok(())
}

// The script of a drill of so many rounds.
fn drill_script(alloc: Global, count: u64) -> Result<Vec<Act>, NoMemory>
    ensures { IfOk result (λ acts. acts.items ≡ drill_script count) }
{
    let mut acts = Vec::new(alloc);
    acts.push(Act::Open(1))?;
    push_send(alloc, &mut acts, b"connect One potrzebie")?;
    push_rounds(alloc, &mut acts, count)?;
    acts.push(Act::Wait(1))?;
    Ok(acts)
}

// How many lines a text has that end.
fn count_lines(text: &[u8]) -> usize
    ensures { result ≡ length (filter is_line_feed text.now) }
{
    text.iter().filter(|b| **b == b'\n').count()
}

// What is written of a drill.
fn summary(alloc: Global, count: u64, objects: usize, shown: &[u8]) -> Result<Vec<u8>, NoMemory>
    ensures { IfOk result (λ text. text.items ≡ summary count objects shown.now) }
{
    let mut text = Vec::new(alloc);
    push_number(&mut text, b"drill ", count)?;
    push_number(&mut text, b": ", objects as u64)?;
    push_number(&mut text, b" objects, ", count_lines(shown) as u64)?;
    push_number(&mut text, b" lines, ", shown.len() as u64)?;
    text.extend_from_slice(b" bytes\n")?;
    Ok(text)
}

// The store of two empty files.
fn nothing_stored(
    alloc: Global,
    first: &mut Nowhere,
    second: &mut Nowhere,
) -> Result<Store, NoMemory>
    ensures { (h : History) → IfOk result (λ store. Knows store h) }
{
    match Log::mount(alloc, first, second, FILE_MOST) {
        Ok(log) => Ok(Store::new(log)),
        // (nothing but want of memory keeps empty files from being mounted)
        Err(_) => Err(NoMemory),
    }
}

// Plays the script of a drill into the starting world; answers the transcript.
fn play_drill(alloc: Global, count: u64, world: &mut World) -> Result<MemSink, NoMemory>
    requires { world.old ≡ fresh }
    ensures played { IfOk result (λ sink. IsPlayedAs (drill_script count) world.new sink.bytes) }
    ensures short { OnErr result (IsCutShort count world.new) }
{
    let acts = drill_script(alloc, count)?;
    let mut buf = buffer(alloc)?;
    let mut transcript = MemSink::new(alloc, Vec::new(alloc));
    let mut first = Nowhere { faults: 0 };
    let mut second = Nowhere { faults: 0 };
    let mut store = nothing_stored(alloc, &mut first, &mut second)?;
    match play(
        alloc,
        world,
        &mut store,
        &mut first,
        &mut second,
        acts.as_slice(),
        &mut buf,
        &mut transcript,
    ) {
        Ok(()) => Ok(transcript),
        // (the sink keeps bytes in memory, and fails where that is refused)
        Err(RunFault::NoMemory | RunFault::WriteFault) => Err(NoMemory),
    }
}

// Plays a drill, and makes its summary.
fn drilled(alloc: Global, count: u64, world: &mut World) -> Result<Vec<u8>, NoMemory>
    requires { world.old ≡ fresh }
    ensures drilled { IfOk result (λ text. IsDrilledAs count world.new text.items) }
    ensures short { OnErr result (IsCutShort count world.new) }
{
    let transcript = play_drill(alloc, count, world)?;
    let text = summary(alloc, count, world.objects(), transcript.bytes())?;
    Ok(text)
}

// Memory was wanted: Died is entered, where the world hasn't entered it itself.
fn lose(world: &mut World)
    ensures dead { (n : ℕ) → IsCutShort n world.old → IsDrillDead n world.new }
{
    if !world.is_dead() {
        world.died(0);
    }
}

/// A drill of so many rounds: the script is played into the starting world, which no disk holds, and a summary of it is written.
/// After want of memory nothing was written.
pub fn drill<K: Sink>(alloc: Global, count: u64, out: &mut K) -> (Why, Tale)
    ensures history { HasDrilled K.written K.faults count result.0 out.old out.new result.1.entries }
    ensures why { MayDrill result.0 }
    ensures write { result.0 ≡ Why.WriteFault → Rose (K.faults out.old) (K.faults out.new) }
    ensures stands { (result.0 ≡ Why.WriteFault → ⊥) → K.faults out.new ≡ K.faults out.old }
{
    let Ok(mut world) = World::starting(alloc) else {
        return (Why::NoMemory, Tale::none());
    };
    let Ok(text) = drilled(alloc, count, &mut world) else {
        lose(&mut world);
        return (Why::NoMemory, world.into_tale());
    };
    match write_all(out, text.as_slice()) {
        Ok(()) => (Why::Fine, world.into_tale()),
        Err(WriteFailed) => (Why::WriteFault, world.into_tale()),
    }
}
