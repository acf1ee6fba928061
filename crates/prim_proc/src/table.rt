// Every primitive of processes.
ghost use Rattle.std.specs.Prelude.{◌≡◌, List, Some, is_some, take};
ghost use Rattle.spec_live.specs.Lives.{Live};
ghost use Rattle.spec_rights.specs.declared.act.Actor.{Actor};
ghost use Rattle.spec_rights.specs.Licence.{Licensed, nobody};
ghost use Rattle.muck_queue.specs.Queues.{Queue as Table, process};
ghost use Rattle.muf_model.specs.declared.prims.Family.TheVariants as kind;
ghost use Rattle.muf_model.specs.Datum.{Datum};
ghost use Rattle.muf_model.specs.Prims.{family_of, is_usable};
ghost use Rattle.muf_frame.specs.inner.Shown.{Shown, flat, locked_by};
ghost use Rattle.muck_perm.specs.inner.Guards.{objects_of, world_of};
ghost use Rattle.spec_processes.specs.ProcessRows.{process_row, processed, taken_at};
ghost use Rattle.prim_common.specs.inner.Applied.{OnAnswer};
ghost use Rattle.prim_proc.specs.inner.Applied.{Applied};
ghost use Rattle.prim_proc.specs.inner.Ended.{ProcessesLicensed};
ghost use Rattle.prim_proc.specs.inner.Plans.{Plans, does_of, fact_row};

use crate::after::After;
use crate::asking::{ready_at, test_room};
use crate::carrying::carry_out;
use crate::plan::Plan;
use crate::{events, rows};
use muck_perm::Guard;
use muck_queue::{Mode, Process, Queue};
use muf_frame::{Frame, PrimFault};
use muf_model::{MufFault, Prim, Text, Value};
use spec_processes::Place;
use std::alloc::Global;

// The most that an integer counts.
const COUNT_MOST: usize = 2_147_483_647;

// The last second that an integer counts.
const SECOND_MOST: u64 = 2_147_483_647;

// A primitive that gives an item and changes nothing.
#[tactic(auto, using(crate::proofs::Missing::no_fact))]
fn fact(prim: Prim, place: Place, own: &Process, alloc: Global) -> Result<Plan, PrimFault>
    ensures { (a : Actor) (items : List Datum) (w : Live) (q : Table) → Plans (does_of (fact_row prim) place a own.now items w q) place w q result }
{
    let item = match prim {
        Prim::Pid => Value::Int(place.pid),
        Prim::Mode => Value::Int(rows::mode_number(own.mode)),
        Prim::SysTime => Value::Int(place.moment.min(SECOND_MOST) as i32),
        Prim::EventCount => Value::Int(own.events.len().min(COUNT_MOST) as i32),
        Prim::Prog => Value::Ref(place.program),
        Prim::Trig => Value::Ref(own.trigger),
        Prim::Caller => Value::Ref(place.caller.unwrap_or(own.trigger)),
        Prim::Cmd => Value::Str(Text::new(alloc, own.command.copy(alloc)?)?),
        _ => return Err(PrimFault::Fault(MufFault::NotCompiled)),
    };
    Ok(Plan::Give(item))
}

// What a primitive is to do with the items that it takes.
#[tactic(auto, using(crate::proofs::Missing::other_row))]
fn plan(
    prim: Prim,
    place: Place,
    own: &Process,
    queue: &Queue,
    guard: &Guard,
    frame: &Frame,
) -> Result<Plan, PrimFault>
    requires { process place.pid queue.now ≡ Some own.now }
    ensures { Plans (does_of (process_row prim) place guard.now.actor own.now (take (taken_at prim (flat frame.now).stack) (flat frame.now).stack) (world_of guard.now) queue.now) place (world_of guard.now) queue.now result }
{
    match prim {
        Prim::Call => rows::call(guard, frame),
        Prim::Fork => Ok(Plan::Fork),
        Prim::Sleep => rows::sleep(place, frame),
        Prim::Read => rows::read(own),
        Prim::Kill => rows::kill(queue, guard, frame),
        Prim::IsPid => rows::is_pid(queue, frame),
        Prim::Queue => rows::queue(guard, frame),
        Prim::SetMode => rows::set_mode(own, frame),
        Prim::Preempt => rows::mode_set(Some(Mode::Preempt), own),
        Prim::Foreground => rows::mode_set(Some(Mode::Foreground), own),
        Prim::Background => rows::mode_set(Some(Mode::Background), own),
        Prim::Random => Ok(Plan::Draw),
        Prim::EventSend => events::event_send(place, own, queue, guard, frame),
        Prim::EventWait => Ok(Plan::Receive),
        _ => fact(prim, place, own, guard.alloc()),
    }
}

/// Uses a primitive of processes at a place, as the actor to whom the guard lends the world; the state of its process is out
/// of the queue. The frame, the world and the processes are as its row says, and the answer says what is to follow: a child is had,
/// a word entered or a program started by the caller, and for the latter two the frame still holds the items. Or it is refused by
/// the fault of the row, and nothing has changed. Either way what changed of the world is open to that actor (`licensed`), and each
/// process is there still, but for one that the actor may end (`processes`). After `NoMemory` nothing is said of frame, world and processes.
pub fn apply(
    prim: Prim,
    place: Place,
    queue: &mut Queue,
    guard: &mut Guard,
    frame: &mut Frame,
) -> Result<After, PrimFault>
    requires { family_of prim ≡ kind.Process }
    ensures row { Applied (processed prim place guard.old.actor (locked_by (flat frame.old).marks) (flat frame.old).stack (world_of guard.old) queue.old) frame.old frame.new guard.old guard.new queue.old queue.new result }
    ensures licensed { OnAnswer result (Licensed guard.old.actor nobody (world_of guard.old) (world_of guard.new)) }
    ensures processes { OnAnswer result (ProcessesLicensed guard.old.actor (objects_of guard.old) queue.old queue.new) }
    ensures there { is_usable prim ≡ is_some (process_row prim) }
{
    let Some(own) = queue.get(place.pid) else {
        return Err(PrimFault::Fault(MufFault::NotCompiled));
    };
    let taken = ready_at(prim, guard, frame)?;
    let plan = plan(prim, place, own, queue, guard, frame)?;
    test_room(plan.items(), taken, frame)?;
    carry_out(plan, taken, place, queue, guard, frame)
}
