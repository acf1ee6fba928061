// The processes of a world.
ghost use Rattle.std.specs.Prelude.{◌≡◌, IfOk};
ghost use Rattle.muf_model.specs.inner.Stands.{TreeStands};
ghost use Rattle.muf_model.specs.inner.Decode.{tree_of};

use crate::world::tune;
use muck_model::{Dbref, NoMemory, Row};
use muck_queue::{Events, Mode, Process, Queue, Wait};
use muf_model::{Closer, Code, CodeWord, Instr, Offer, Placed, Shared, Text, Value};
use muf_running::{Occasion, Running};
use std::alloc::Global;
use tests_rows::{Words, line};

// The code of a program of one word, which ends at once.
fn code(alloc: Global) -> Result<Code, NoMemory>
    ensures { IfOk result (λ c. TreeStands c (tree_of c)) }
{
    let mut placed = Row::new(alloc)?;
    placed.push(Placed {
        line: 1,
        instr: Instr::Close(Closer::Semicolon),
    })?;
    let mut words = Row::new(alloc)?;
    words.push(CodeWord {
        name: Text::new(alloc, line(alloc, b"word")?)?,
        offer: Offer::Nobody,
        variables: 0,
        start: 0,
    })?;
    Ok(Code {
        placed,
        words,
        variables: 0,
    })
}

// A program that runs; it is there, since the code has a word.
fn running(alloc: Global, program: Dbref) -> Result<Option<Running>, NoMemory> {
    let occasion = Occasion {
        player: Dbref(1),
        place: Dbref(0),
        trigger: program,
        command: line(alloc, b"go")?,
    };
    let code = Shared::new(alloc, code(alloc)?)?;
    Running::begin(alloc, program, code, occasion, line(alloc, b"")?)
}

// `add PLAYER DUE PROGRAM`: a process of a player that is due in a second and runs a program. The same program started it, and it is
// tied to the connection of that number.
fn add(
    alloc: Global,
    out: &mut String,
    queue: &mut Queue,
    words: &mut Words<'_>,
) -> Result<(), NoMemory> {
    let player = words.object();
    let due = u64::from(words.number());
    let program = words.object();
    let command = line(alloc, b"go")?;
    let Some(running) = running(alloc, program)? else {
        return Err(NoMemory);
    };
    let process = Process {
        number: 0,
        due,
        player,
        trigger: program,
        command,
        descr: u32::try_from(program.0).ok(),
        program,
        mode: Mode::Foreground,
        wait: Wait::Nothing,
        units: 0,
        section: 0,
        events: Events::new(alloc),
        running: Some(running),
    };
    let added = queue.add(process, &tune());
    write!(out, "{added:?}")?;
    Ok(())
}

// What is known of a process.
fn told(out: &mut String, process: Option<&Process>) -> Result<(), NoMemory> {
    let Some(process) = process else {
        return Ok(out.push_str("none")?);
    };
    let (number, due) = (process.number, process.due);
    let trigger = process.trigger.0;
    write!(out, "{number}, due {due}, trigger #{trigger}")?;
    Ok(())
}

/// `queue add PLAYER DUE PROGRAM`, `due SECOND`, `claim PARTY SECOND`, `release NUMBER SECOND`, `kill NUMBER`, `show NUMBER`,
/// `full PLAYER`, `tied CONNECTION`, `count`.
pub fn queue(
    alloc: Global,
    out: &mut String,
    queue: &mut Queue,
    words: &mut Words<'_>,
) -> Result<(), NoMemory> {
    let verb = words.word();
    if verb == b"add".as_slice() {
        return add(alloc, out, queue, words);
    }
    let player = Words { left: words.left }.object();
    let number = words.small();
    let pid = i32::from(number);
    let second = u64::from(words.number());
    match verb {
        b"due" => Ok(write!(out, "{:?}", queue.next_due(u64::from(number)))?),
        b"claim" => Ok(write!(out, "{:?}", queue.claim(number, second))?),
        b"release" => {
            queue.release(pid);
            Ok(write!(out, "{:?}", queue.next_due(second))?)
        }
        b"kill" => Ok(write!(out, "{}", queue.kill(pid))?),
        b"show" => told(out, queue.get(pid)),
        b"full" => Ok(write!(out, "{}", queue.is_full(player, &tune()))?),
        b"tied" => Ok(write!(out, "{}", queue.is_tied(u32::from(number)))?),
        _ => Ok(write!(out, "{}", queue.len())?),
    }
}

/// `wait line NUMBER`, `event NUMBER`: what a process waits for. `send NUMBER SECOND`: an event comes. `wake NUMBER SECOND`: it goes on.
/// `busy CONNECTION`, `reader CONNECTION`.
pub fn wait(
    alloc: Global,
    out: &mut String,
    queue: &mut Queue,
    words: &mut Words<'_>,
) -> Result<(), NoMemory> {
    let verb = words.word();
    let number = words.small();
    let pid = i32::from(number);
    let second = u64::from(words.number());
    match verb {
        b"line" => queue.rest(pid, Wait::ForLine),
        b"event" => queue.rest(pid, Wait::ForEvent),
        b"send" => {
            let name = Text::new(alloc, line(alloc, b"chime")?)?;
            let sent = queue.event(pid, second, name, Value::Int(7));
            write!(out, "{sent:?}")?;
        }
        b"wake" => queue.wake(pid, second),
        b"busy" => write!(out, "{}", queue.is_busy(u32::from(number)))?,
        _ => write!(out, "{:?}", queue.reader(u32::from(number)))?,
    }
    Ok(())
}

/// `end tied CONNECTION`, `running PROGRAM`, `trigger OBJECT`: what follows where those are gone.
pub fn end(queue: &mut Queue, words: &mut Words<'_>) {
    let verb = words.word();
    let object = Words { left: words.left }.object();
    match verb {
        b"tied" => queue.end_tied(words.number()),
        b"running" => queue.end_running(object),
        _ => queue.clear_trigger(object),
    }
}
