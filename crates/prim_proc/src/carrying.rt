// What a primitive is to do is done.
ghost use Rattle.std.specs.Prelude.{◌≡◌, ◌≤◌, ◌+◌, ◌∷◌, length, drop};
ghost use Rattle.muf_model.specs.Answer.{stack_most};
ghost use Rattle.muf_model.specs.inner.View.{view};
ghost use Rattle.muf_frame.specs.inner.Shown.{Shown, flat};
ghost use Rattle.muck_perm.specs.inner.Guards.{world_of};
ghost use Rattle.prim_proc.specs.declared.after.After.TheVariants.{Go};
ghost use Rattle.prim_proc.specs.inner.Applied.{Applied, HasStack};
ghost use Rattle.prim_proc.specs.inner.Plans.{Received, Sent, TakesAll, effect_of, items_of, stacked};

use crate::after::After;
use crate::plan::Plan;
use muck_perm::Guard;
use muck_queue::{Queue, QueueFault, Wait};
use muf_frame::{Frame, PrimFault};
use muf_model::{MufFault, Text, Value};
use spec_processes::Place;

// So many items are taken, and this follows.
#[tactic(auto, using(crate::proofs::Room::room_steps))]
fn take(frame: &mut Frame, taken: usize, after: After) -> After
    requires { taken ≤ length frame.old.stack }
    ensures stack { HasStack (drop taken (flat frame.old).stack) frame.old frame.new }
    ensures after { result ≡ after }
{
    frame.drop_items(taken);
    after
}

// So many items give way to one, and the process goes on.
#[tactic(auto, using(crate::proofs::Room::room_steps))]
fn replace(frame: &mut Frame, taken: usize, item: Value) -> After
    requires there { taken ≤ length frame.old.stack }
    requires room { 1 + length (drop taken (flat frame.old).stack) ≤ stack_most }
    ensures stack { HasStack (view item ∷ drop taken (flat frame.old).stack) frame.old frame.new }
    ensures after { result ≡ Go }
{
    frame.drop_items(taken);
    frame.push_item(item);
    After::Go
}

// An event is sent.
fn send(queue: &mut Queue, pid: i32, moment: u64, name: Text, item: Value) -> Result<(), PrimFault>
    ensures { Sent pid moment name (view item) queue.old queue.new result }
{
    match queue.event(pid, moment, name, item) {
        Ok(_) => Ok(()),
        Err(QueueFault::NoMemory) => Err(PrimFault::NoMemory),
        Err(QueueFault::TooManyEvents | QueueFault::ProcessLimit) => {
            Err(PrimFault::Fault(MufFault::TooHeavy))
        }
    }
}

// The oldest event is given, or the process waits for one.
#[tactic(auto, using(crate::proofs::Room::room_steps))]
fn receive(place: Place, taken: usize, queue: &mut Queue, frame: &mut Frame) -> After
    requires there { taken ≤ length frame.old.stack }
    requires room { 2 + length (drop taken (flat frame.old).stack) ≤ stack_most }
    ensures { Received place (drop taken (flat frame.old).stack) frame.old frame.new queue.old queue.new result }
{
    frame.drop_items(taken);
    match queue.take_event(place.pid) {
        Some(event) => {
            frame.push_item(event.data);
            frame.push_item(Value::Str(event.name));
            After::Go
        }
        None => {
            queue.rest(place.pid, Wait::ForEvent);
            After::Wait
        }
    }
}

/// What is to be done is done, where so many items are taken, and there is room for those that come.
pub(crate) fn carry_out(
    plan: Plan,
    taken: usize,
    place: Place,
    queue: &mut Queue,
    guard: &mut Guard,
    frame: &mut Frame,
) -> Result<After, PrimFault>
    requires there { taken ≤ length frame.old.stack }
    requires room { items_of plan + length (drop taken (flat frame.old).stack) ≤ stack_most }
    requires all { TakesAll plan taken }
    ensures { Applied (stacked (drop taken (flat frame.old).stack) (effect_of plan place (world_of guard.old) queue.old)) frame.old frame.new guard.old guard.new queue.old queue.new result }
{
    match plan {
        Plan::Nothing => Ok(take(frame, taken, After::Go)),
        Plan::Give(item) => Ok(replace(frame, taken, item)),
        Plan::Draw => {
            let word = guard.random();
            Ok(replace(frame, taken, Value::Int((word / 2) as i32)))
        }
        Plan::Kill(pid) => {
            queue.kill(pid);
            Ok(replace(frame, taken, Value::Int(1)))
        }
        Plan::SetMode(mode) => {
            queue.set_mode(place.pid, mode);
            Ok(take(frame, taken, After::Go))
        }
        Plan::Send { pid, name, item } => {
            send(queue, pid, place.moment, name, item)?;
            Ok(take(frame, taken, After::Go))
        }
        Plan::Receive => Ok(receive(place, taken, queue, frame)),
        Plan::Sleep(due) => {
            queue.sleep(place.pid, due);
            Ok(take(frame, taken, After::Wait))
        }
        Plan::Read => {
            queue.rest(place.pid, Wait::ForLine);
            Ok(take(frame, taken, After::Wait))
        }
        Plan::Fork => Ok(take(frame, taken, After::Fork)),
        Plan::Enter { program, word } => Ok(After::Call { program, word }),
        Plan::Start {
            program,
            delay,
            argument,
        } => Ok(After::Queue {
            program,
            delay,
            argument,
        }),
    }
}
