// The processes, by rising number.
ghost use Rattle.std.specs.Prelude.{◌≡◌, ◌≤◌, true, OnOk, OnErr, length, find, not, map, if◌then◌else◌, slice_get, Some, None};
ghost use Rattle.std.specs.List.{count_by, list_all, list_any, position, position_or_len};
ghost use Rattle.std.specs.Option.{option_and_then, option_map, option_map_or, option_copied};
ghost use Rattle.muck_queue.specs.Queues.{at_state, has_pid, is_process_of, is_process_due, is_before, is_tied_to, reads_from, keeps_busy, runs_in, has_trigger, earliest, earlier, changed_first, without_first, without_all, without_trigger, units_counted, resting, sleeping, process_in_mode, told_line, told_event, without_event, woken};
ghost use Rattle.muck_queue.specs.inner.Events.{shown};
ghost use Rattle.muck_queue.specs.inner.Known.{fits_second, has_connection};

use crate::claim::Claim;
use crate::events::ProcessEvent;
use crate::mode::{Mode, Wait};
use crate::process::Process;
use muck_model::{Dbref, NoMemory};
use muf_model::Text;
use muf_running::Running;

// The place of a process.
fn found_at(processes: &[Process], pid: i32) -> Option<usize>
    ensures { result ≡ position (has_pid pid) processes.now }
{
    processes.iter().position(|p| p.has_pid(pid))
}

/// The place of a process, or the length where it isn't there.
pub fn place_of(processes: &Vec<Process>, pid: i32) -> usize
    ensures at { result ≡ position_or_len (has_pid pid) processes.now.items }
    ensures within { result ≤ length processes.now.items }
{
    found_at(processes, pid).unwrap_or(processes.len())
}

/// The process of a number.
pub fn find_by(processes: &[Process], pid: i32) -> Option<&Process>
    ensures { option_copied result ≡ find (has_pid pid) processes.now }
{
    processes.iter().find(|p| p.has_pid(pid))
}

/// How many processes a player has.
pub fn count_of(processes: &[Process], player: Dbref) -> usize
    ensures { result ≡ count_by (is_process_of player) processes.now }
{
    processes.iter().filter(|p| p.is_of(player)).count()
}

/// Whether a process is tied to a connection.
pub fn is_tied(processes: &[Process], d: u32) -> bool
    ensures { result ≡ list_any (is_tied_to d) processes.now }
{
    processes.iter().any(|p| p.is_tied_to(d))
}

/// Whether some process is tied to a connection.
pub fn are_tied(processes: &[Process]) -> bool
    ensures { result ≡ list_any has_connection processes.now }
{
    processes.iter().any(|p| p.has_connection())
}

/// Whether a process that is tied to a connection doesn't wait for its line.
pub fn is_busy(processes: &[Process], d: u32) -> bool
    ensures { result ≡ list_any (keeps_busy d) processes.now }
{
    processes.iter().any(|p| p.keeps_busy(d))
}

/// The process that takes the next line of a connection.
pub fn reader(processes: &[Process], d: u32) -> Option<&Process>
    ensures { option_copied result ≡ find (reads_from d) processes.now }
{
    processes.iter().find(|p| p.reads_from(d))
}

// The earlier of two processes, of which the first may be missing.
fn earlier<'a>(best: Option<&'a Process>, p: &'a Process) -> &'a Process
    ensures { result.now ≡ option_map_or (λ q. earlier q p.now) (option_copied best.entry) p.now }
{
    match best {
        Some(q) => if p.is_before(q) { p } else { q },
        None => p,
    }
}

/// The process that is to go on next.
pub fn earliest<'a>(processes: &'a [Process], claims: &[Claim], moment: u64) -> Option<&'a Process>
    ensures { option_copied result ≡ earliest (is_process_due moment claims.now) processes.now }
{
    let mut best = None;
    for p in processes {
        if p.is_due(moment, claims) {
            best = Some(earlier(best, p));
        }
    }
    best
}

/// The second in which the first is due of those that wait for nothing; the last second of all where there is none.
pub fn soonest(processes: &[Process]) -> u64
    ensures { list_all (fits_second result) processes.now ≡ true }
{
    let mut soonest = u64::MAX;
    for p in processes {
        if p.is_timed() {
            soonest = soonest.min(p.due);
        }
    }
    soonest
}

/// Takes out the state of a process, which keeps its place.
pub fn lend(processes: &mut Vec<Process>, pid: i32) -> Option<Running>
    ensures running { result ≡ option_and_then (λ p. p.running) (find (has_pid pid) processes.old.items) }
    ensures rest { processes.new.items ≡ changed_first (has_pid pid) (at_state None) processes.old.items }
{
    let at = place_of(processes, pid);
    if at < processes.len() {
        let p = &mut processes[at];
        return p.running.take();
    }
    None
}

/// A process stands at a state.
pub fn put_back(processes: &mut Vec<Process>, pid: i32, running: Running)
    ensures { processes.new.items ≡ changed_first (has_pid pid) (at_state (Some running)) processes.old.items }
{
    let at = place_of(processes, pid);
    if at < processes.len() {
        let p = &mut processes[at];
        p.running = Some(running);
    }
}

/// A process took so many units.
pub fn count(processes: &mut Vec<Process>, pid: i32, units: u32)
    ensures { processes.new.items ≡ changed_first (has_pid pid) (units_counted units) processes.old.items }
{
    let at = place_of(processes, pid);
    if at < processes.len() {
        let p = &mut processes[at];
        p.count(units);
    }
}

/// A process waits.
pub fn rest(processes: &mut Vec<Process>, pid: i32, wait: Wait)
    ensures { processes.new.items ≡ changed_first (has_pid pid) (resting wait) processes.old.items }
{
    let at = place_of(processes, pid);
    if at < processes.len() {
        let p = &mut processes[at];
        p.rest(wait);
    }
}

/// A process sleeps until a second.
pub fn sleep(processes: &mut Vec<Process>, pid: i32, due: u64)
    ensures { processes.new.items ≡ changed_first (has_pid pid) (sleeping due) processes.old.items }
{
    let at = place_of(processes, pid);
    if at < processes.len() {
        let p = &mut processes[at];
        p.sleep(due);
    }
}

/// A process is in another mode.
pub fn set_mode(processes: &mut Vec<Process>, pid: i32, mode: Mode)
    ensures { processes.new.items ≡ changed_first (has_pid pid) (process_in_mode mode) processes.old.items }
{
    let at = place_of(processes, pid);
    if at < processes.len() {
        let p = &mut processes[at];
        p.set_mode(mode);
    }
}

/// The line for which a process waited comes.
pub fn give_line(processes: &mut Vec<Process>, pid: i32, moment: u64, line: Text)
    ensures { processes.new.items ≡ changed_first (has_pid pid) (told_line moment line) processes.old.items }
{
    let at = place_of(processes, pid);
    if at < processes.len() {
        let p = &mut processes[at];
        p.give_line(moment, line);
    }
}

/// A slice of a process begins.
pub fn wake(processes: &mut Vec<Process>, pid: i32, moment: u64)
    ensures { processes.new.items ≡ changed_first (has_pid pid) (woken moment) processes.old.items }
{
    let at = place_of(processes, pid);
    if at < processes.len() {
        let p = &mut processes[at];
        p.wake(moment);
    }
}

/// An event comes for a process, where it is there. After an error nothing has changed.
pub fn give_event(
    processes: &mut Vec<Process>,
    pid: i32,
    moment: u64,
    event: ProcessEvent,
) -> Result<(), NoMemory>
    ensures ok { OnOk result (processes.new.items ≡ changed_first (has_pid pid) (told_event moment (shown event)) processes.old.items) }
    ensures err { OnErr result (processes.new.items ≡ processes.old.items) }
{
    let at = place_of(processes, pid);
    if at < processes.len() {
        let p = &mut processes[at];
        p.give_event(moment, event)?;
    }
    Ok(())
}

/// Takes out the oldest event of a process; `None`, and nothing has changed, where it has none.
pub fn take_event(processes: &mut Vec<Process>, pid: i32) -> Option<ProcessEvent>
    ensures event { option_map shown result ≡ option_and_then (λ p. slice_get p.events 0) (find (has_pid pid) processes.old.items) }
    ensures rest { processes.new.items ≡ changed_first (has_pid pid) without_event processes.old.items }
{
    let at = place_of(processes, pid);
    if at < processes.len() {
        let p = &mut processes[at];
        return p.take_event();
    }
    None
}

/// Takes out the process of a number.
pub fn take(processes: &mut Vec<Process>, pid: i32) -> Option<Process>
    ensures process { result ≡ find (has_pid pid) processes.old.items }
    ensures rest { processes.new.items ≡ without_first (has_pid pid) processes.old.items }
{
    let at = place_of(processes, pid);
    if at < processes.len() {
        return Some(processes.remove(at));
    }
    None
}

/// The processes that are tied to a connection end.
pub fn end_tied(processes: &mut Vec<Process>, d: u32)
    ensures { processes.new.items ≡ without_all (is_tied_to d) processes.old.items }
{
    processes.retain(|p| !p.is_tied_to(d));
}

/// The processes that run a program end.
pub fn end_running(processes: &mut Vec<Process>, program: Dbref)
    ensures { processes.new.items ≡ without_all (runs_in program) processes.old.items }
{
    processes.retain(|p| !p.runs(program));
}

/// What started processes is gone.
pub fn clear_trigger(processes: &mut Vec<Process>, trigger: Dbref)
    ensures { processes.new.items ≡ map (λ p. if has_trigger trigger p then without_trigger p else p) processes.old.items }
{
    for i in 0..processes.len() {
        let p = &mut processes[i];
        p.clear_trigger(trigger);
    }
}
