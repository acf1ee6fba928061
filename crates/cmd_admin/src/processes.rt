// Listing and ending processes.
ghost use Rattle.std.specs.Prelude.{◌≡◌, ◌≤◌, IfOk, OnOk, OnErr};
ghost use Rattle.std.specs.Option.{option_copied, option_map_or};
ghost use Rattle.spec_live.specs.Lives.{tell};
ghost use Rattle.spec_rights.specs.Verdict.{verdict};
ghost use Rattle.muck_queue.specs.Queues.{without_process};
ghost use Rattle.spec_admin.specs.Replies.{process_line, processes_count};
ghost use Rattle.spec_admin.specs.Processes.{ending_act, process_shown, processes_shown, process_meant, kill_told, process_killed};
ghost use Rattle.muck_perm.specs.inner.Guards.{Did, objects_of, world_of};
ghost use Rattle.cmd_admin.specs.inner.Shown.{IsShown};

use cmd_common::{name_and, refuse};
use muck_model::{Denial, Line, NoMemory, decimal};
use muck_perm::{Guard, verdict};
use muck_queue::{Process, Queue};
use spec_rights::Act;
use std::alloc::Global;

/// The greatest number that a process can have.
const NUMBER_MOST: u64 = 2_147_483_647;

// To end it.
fn ending(process: &Process) -> Act
    ensures { result ≡ ending_act process.now }
{
    Act::EndProcess {
        player: process.player,
        program: process.program,
    }
}

// The denial by which the actor may not end a process.
fn ending_denial(guard: &Guard, process: &Process) -> Option<Denial>
    ensures { result ≡ verdict (objects_of guard.now) guard.now.actor (ending_act process.now) }
{
    match verdict(guard.db(), &guard.actor(), &ending(process)) {
        Ok(_) => None,
        Err(denial) => Some(denial),
    }
}

// A process by its number, the program with which it was started, and the name of its player.
#[tactic(auto, unfolding(spec_admin::specs::Replies::process_line))]
fn process_line(alloc: Global, process: &Process, name: &[u8]) -> Result<Vec<u8>, NoMemory>
    ensures { IfOk result (λ line. line.items ≡ process_line process.now.number process.now.program.0 name.now) }
{
    let number = process.number;
    let program = process.program.0;
    let numbers = format!(in alloc; "{number} #{program} ")?;
    let mut line = Vec::new(alloc);
    line.extend_from_slice(numbers.as_bytes())?;
    line.extend_from_slice(name)?;
    Ok(line)
}

// Shows a process.
#[tactic(auto, unfolding(spec_admin::specs::Processes::process_shown, spec_live::specs::Lives::reading))]
fn show_process(guard: &mut Guard, d: u32, process: &Process) -> Result<(), NoMemory>
    ensures { Did (process_shown d process.now) guard.old guard.new result }
{
    let name = name_and(guard, process.player, b"")?;
    let line = process_line(guard.alloc(), process, &name)?;
    guard.tell(d, &line)?;
    Ok(())
}

// Shows a process, where the actor may end it; answers how many were shown.
fn show_own(guard: &mut Guard, d: u32, process: &Process) -> Result<usize, NoMemory>
    ensures shown { IsShown d process.now guard.old guard.new result }
    ensures most { IfOk result (λ count. count ≤ 1) }
{
    if ending_denial(guard, process).is_some() {
        return Ok(0);
    }
    show_process(guard, d, process)?;
    Ok(1)
}

// Tells the connection how many processes were shown.
#[tactic(auto, unfolding(spec_admin::specs::Replies::processes_count))]
fn show_count(guard: &mut Guard, d: u32, count: usize) -> Result<(), NoMemory>
    ensures { Did (tell d (processes_count count)) guard.old guard.new result }
{
    let line = format!(in guard.alloc(); "{count} processes.")?;
    guard.tell(d, line.as_bytes())?;
    Ok(())
}

/// `@ps`: shows the processes that the actor may end, by number, and then how many they are.
pub fn list(guard: &mut Guard, queue: &Queue, d: u32) -> Result<(), NoMemory>
    ensures { Did (processes_shown d guard.old.actor queue.now) guard.old guard.new result }
{
    let mut count = 0;
    for process in queue.as_slice() {
        count += show_own(guard, d, process)?;
    }
    show_count(guard, d, count)
}

// The process whose number a text writes.
fn process_meant<'a>(queue: &'a Queue, text: &[u8]) -> Option<&'a Process>
    ensures { option_copied result ≡ process_meant text.now queue.now }
{
    let number = decimal(text, NUMBER_MOST)?;
    queue.get(number as i32)
}

/// `@kill`: ends the process whose number a text writes, where the actor may end it.
#[tactic(auto, unfolding(spec_admin::specs::Processes::kill_told, spec_admin::specs::Replies::no_process_reply, spec_admin::specs::Replies::killed_reply, spec_rights::specs::Asking::asked))]
pub fn kill(guard: &mut Guard, queue: &mut Queue, d: u32, text: &Line) -> Result<(), NoMemory>
    ensures told { Did (kill_told d guard.old.actor queue.old text.now) guard.old guard.new result }
    ensures queue { OnOk result (queue.new ≡ option_map_or (λ p. without_process p.number queue.old) (process_killed guard.old.actor queue.old text.now (world_of guard.old)) queue.old) }
    ensures kept { OnErr result (queue.new ≡ queue.old) }
{
    let Some(process) = process_meant(queue, text.as_slice()) else {
        return guard.tell(d, b"No such process.");
    };
    let number = process.number;
    if let Some(denial) = ending_denial(guard, process) {
        return refuse(guard, d, denial);
    }
    guard.tell(d, b"Process killed.")?;
    queue.kill(number);
    Ok(())
}
