// The rows of the primitives of processes, but for events: what each is to do.
ghost use Rattle.std.specs.Prelude.{◌≡◌, [], take};
ghost use Rattle.std.specs.Option.{option_map};
ghost use Rattle.spec_live.specs.Lives.{Live};
ghost use Rattle.spec_rights.specs.declared.act.Actor.{Actor};
ghost use Rattle.muf_model.specs.declared.prims.Primitive.TheVariants.{Call as CallPrim};
ghost use Rattle.muf_frame.specs.inner.Shown.{Shown, flat};
ghost use Rattle.muck_perm.specs.inner.Guards.{world_of};
ghost use Rattle.muck_queue.specs.Queues.{Queue as Table};
ghost use Rattle.muck_queue.specs.declared.process.Process.{Process};
ghost use Rattle.spec_processes.specs.declared.place.Place.{Place};
ghost use Rattle.spec_processes.specs.ProcessRows.{taken_at, mode_number, mode_numbered, is_pid, kill, sleep, line_read, mode_set, set_mode, program_call, program_starting, queue};
ghost use Rattle.prim_proc.specs.inner.Plans.{Plans};
ghost use Rattle.prim_proc.specs.inner.Taken.{entering_at, started_in};

use crate::asking::{permit, test_program};
use crate::plan::Plan;
use muck_model::Dbref;
use muck_perm::Guard;
use muck_queue::{Mode, Process, Queue};
use muf_frame::{Frame, PrimFault};
use muf_model::{MufFault, Text, Value};
use spec_processes::Place;
use spec_rights::Act;

/// ISPID?.
pub(crate) fn is_pid(queue: &Queue, frame: &Frame) -> Result<Plan, PrimFault>
    ensures { (x : Place) (a : Actor) (p : Process) (w : Live) → Plans (is_pid x a p (take 1 (flat frame.now).stack) w queue.now) x w queue.now result }
{
    let Some(pid) = frame.int_at(0) else {
        return Err(PrimFault::Fault(MufFault::BadType));
    };
    Ok(Plan::Give(Value::truth(queue.get(pid).is_some())))
}

/// KILL.
pub(crate) fn kill(queue: &Queue, guard: &Guard, frame: &Frame) -> Result<Plan, PrimFault>
    ensures { (x : Place) (p : Process) → Plans (kill x guard.now.actor p (take 1 (flat frame.now).stack) (world_of guard.now) queue.now) x (world_of guard.now) queue.now result }
{
    let Some(pid) = frame.int_at(0) else {
        return Err(PrimFault::Fault(MufFault::BadType));
    };
    let Some(other) = queue.get(pid) else {
        return Ok(Plan::Give(Value::Int(0)));
    };
    let (player, program) = (other.player, other.program);
    permit(guard, &Act::EndProcess { player, program })?;
    Ok(Plan::Kill(pid))
}

/// SLEEP.
pub(crate) fn sleep(place: Place, frame: &Frame) -> Result<Plan, PrimFault>
    ensures { (a : Actor) (p : Process) (w : Live) (q : Table) → Plans (sleep place a p (take 1 (flat frame.now).stack) w q) place w q result }
{
    let Some(seconds) = frame.int_at(0) else {
        return Err(PrimFault::Fault(MufFault::BadType));
    };
    if seconds < 0 {
        return Err(PrimFault::Fault(MufFault::BadSleep));
    }
    Ok(Plan::Sleep(place.moment.saturating_add(seconds as u64)))
}

/// READ.
pub(crate) fn read(own: &Process) -> Result<Plan, PrimFault>
    ensures { (x : Place) (a : Actor) (w : Live) (q : Table) → Plans (line_read x a own.now [] w q) x w q result }
{
    if own.mode.is_background() || own.descr.is_none() {
        return Err(PrimFault::Fault(MufFault::CannotRead));
    }
    Ok(Plan::Read)
}

/// The number of a mode.
pub(crate) fn mode_number(mode: Mode) -> i32
    ensures { result ≡ mode_number mode }
{
    match mode {
        Mode::Preempt => 0,
        Mode::Foreground => 1,
        Mode::Background => 2,
    }
}

// The mode of a number.
fn mode_numbered(n: i32) -> Option<Mode>
    ensures { result ≡ mode_numbered n }
{
    match n {
        0 => Some(Mode::Preempt),
        1 => Some(Mode::Foreground),
        2 => Some(Mode::Background),
        _ => None,
    }
}

/// Another mode; one without a connection is never in the foreground.
pub(crate) fn mode_set(mode: Option<Mode>, own: &Process) -> Result<Plan, PrimFault>
    ensures { (x : Place) (w : Live) (q : Table) → Plans (mode_set mode x own.now w q) x w q result }
{
    match mode {
        None => Err(PrimFault::Fault(MufFault::BadArgument)),
        Some(Mode::Foreground) if own.descr.is_none() => {
            Err(PrimFault::Fault(MufFault::BadArgument))
        }
        Some(mode) => Ok(Plan::SetMode(mode)),
    }
}

/// SETMODE.
pub(crate) fn set_mode(own: &Process, frame: &Frame) -> Result<Plan, PrimFault>
    ensures { (x : Place) (a : Actor) (w : Live) (q : Table) → Plans (set_mode x a own.now (take 1 (flat frame.now).stack) w q) x w q result }
{
    let Some(n) = frame.int_at(0) else {
        return Err(PrimFault::Fault(MufFault::BadType));
    };
    mode_set(mode_numbered(n), own)
}

// A word of a program is entered, by leave to call that.
fn enter(guard: &Guard, program: Option<Dbref>, word: Option<Text>) -> Result<Plan, PrimFault>
    ensures { (x : Place) (q : Table) → Plans (entering_at (world_of guard.now) guard.now.actor program word) x (world_of guard.now) q result }
{
    let Some(program) = program else {
        return Err(PrimFault::Fault(MufFault::BadType));
    };
    test_program(guard, program)?;
    permit(guard, &Act::Call { program })?;
    Ok(Plan::Enter { program, word })
}

/// CALL.
pub(crate) fn call(guard: &Guard, frame: &Frame) -> Result<Plan, PrimFault>
    ensures { (x : Place) (p : Process) (q : Table) → Plans (program_call x guard.now.actor p (take (taken_at CallPrim (flat frame.now).stack) (flat frame.now).stack) (world_of guard.now) q) x (world_of guard.now) q result }
{
    let Some(name) = frame.text_at(0) else {
        return enter(guard, frame.object_at(0), None);
    };
    let word = name.share()?;
    enter(guard, frame.object_at(1), Some(word))
}

// A program is started so many seconds later, by leave to call it.
fn start(guard: &Guard, program: Dbref, seconds: i32, argument: Text) -> Result<Plan, PrimFault>
    ensures { (x : Place) (q : Table) → Plans (program_starting (world_of guard.now) guard.now.actor program.0 seconds argument) x (world_of guard.now) q result }
{
    test_program(guard, program)?;
    if seconds < 0 {
        return Err(PrimFault::Fault(MufFault::BadSleep));
    }
    permit(guard, &Act::Call { program })?;
    let delay = seconds as u32;
    Ok(Plan::Start {
        program,
        delay,
        argument,
    })
}

// The seconds, the program and the argument upon them.
fn started(frame: &Frame) -> Option<(i32, Dbref, &Text)>
    ensures { option_map (λ t. (t.0, t.1.0, t.2.now)) result ≡ started_in (flat frame.now).stack }
{
    let argument = frame.text_at(0)?;
    let program = frame.object_at(1)?;
    let seconds = frame.int_at(2)?;
    Some((seconds, program, argument))
}

/// QUEUE.
pub(crate) fn queue(guard: &Guard, frame: &Frame) -> Result<Plan, PrimFault>
    ensures { (x : Place) (p : Process) (q : Table) → Plans (queue x guard.now.actor p (take 3 (flat frame.now).stack) (world_of guard.now) q) x (world_of guard.now) q result }
{
    let Some((seconds, program, argument)) = started(frame) else {
        return Err(PrimFault::Fault(MufFault::BadType));
    };
    start(guard, program, seconds, argument.share()?)
}
