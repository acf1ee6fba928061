// The row of EVENT_SEND: what comes with an event.
ghost use Rattle.std.specs.Prelude.{◌≡◌, None, Ok, Err, true, false, IfOk, length, take};
ghost use Rattle.std.specs.Option.{option_map};
ghost use Rattle.muck_model.specs.Bytes.{text_fault};
ghost use Rattle.spec_live.specs.Lives.{Live};
ghost use Rattle.muf_model.specs.declared.value.MapKey.TheVariants.{Name as NameKey};
ghost use Rattle.muf_model.specs.Datum.{dict as whole, pairs_of};
ghost use Rattle.muf_model.specs.Entries.{with_entry};
ghost use Rattle.muf_model.specs.Values.{value_fits};
ghost use Rattle.muf_model.specs.inner.View.{view};
ghost use Rattle.muf_frame.specs.inner.Shown.{Shown, flat};
ghost use Rattle.muck_perm.specs.inner.Guards.{world_of};
ghost use Rattle.spec_processes.specs.ProcessRows.{event_name, event_send};
ghost use Rattle.prim_proc.specs.inner.Plans.{Plans};
ghost use Rattle.prim_proc.specs.inner.Sending.{DataMade, NameMade, descr_item, sender_entries};
ghost use Rattle.prim_proc.specs.inner.Taken.{sent_in};

use crate::plan::Plan;
use muck_model::{Line, NoMemory, TEXT_MOST};
use muck_perm::Guard;
use muck_queue::{Process, Queue};
use muf_frame::{Frame, PrimFault};
use muf_model::{MapKey, MufFault, Text, Value, ValueFault, ValueMap};
use spec_processes::Place;
use spec_rights::Actor;
use std::alloc::Global;
use std::sync::Arc;

// The most events that a process has.
const EVENTS_MOST: usize = 64;

// A key of these bytes.
fn key(alloc: Global, name: &[u8]) -> Result<MapKey, NoMemory>
    requires { text_fault name.now ≡ None }
    ensures { IfOk result (λ key. key ≡ NameKey name.now) }
{
    let line = Line::of_text(alloc, name)?;
    Ok(MapKey::Name(Text::new(alloc, line)?))
}

// An entry more, in a dictionary that has room for it.
fn put(alloc: Global, dict: &mut ValueMap, name: &[u8], value: Value) -> Result<(), NoMemory>
    requires text { text_fault name.now ≡ None }
    requires room { value_fits (whole (pairs_of (with_entry (NameKey name.now) (view value) dict.old))) ≡ true }
    ensures { IfOk result (λ _. dict.new ≡ with_entry (NameKey name.now) (view value) dict.old) }
{
    match dict.put(key(alloc, name)?, value) {
        Ok(()) => Ok(()),
        Err(ValueFault::TooHeavy) => unreachable!(),
        Err(ValueFault::NoMemory) => Err(NoMemory),
    }
}

// The number of a connection, or -1.
fn number_of(descr: Option<u32>) -> Value
    ensures { view result ≡ descr_item descr }
{
    match descr {
        Some(d) => Value::Int(d.cast_signed()),
        None => Value::Int(-1),
    }
}

// By whom an event is sent.
fn sender(alloc: Global, place: Place, own: &Process, actor: Actor) -> Result<ValueMap, NoMemory>
    ensures { IfOk result (λ dict. dict ≡ sender_entries place actor own.now) }
{
    let mut dict = ValueMap::new(alloc)?;
    put(alloc, &mut dict, b"caller_pid", Value::Int(place.pid))?;
    put(alloc, &mut dict, b"caller_prog", Value::Ref(place.program))?;
    put(alloc, &mut dict, b"descr", number_of(own.descr))?;
    put(alloc, &mut dict, b"player", Value::Ref(actor.player))?;
    put(alloc, &mut dict, b"prog_uid", Value::Ref(actor.user))?;
    put(alloc, &mut dict, b"trigger", Value::Ref(own.trigger))?;
    Ok(dict)
}

// A dictionary as a value.
fn value_of(alloc: Global, dict: ValueMap) -> Result<Value, NoMemory>
    ensures { IfOk result (λ value. view value ≡ whole (pairs_of dict)) }
{
    let shared = Arc::new(alloc, dict)?;
    Ok(Value::Dict(shared))
}

// What comes with an event: what was sent, and by whom.
fn event_data(place: Place, own: &Process, guard: &Guard, item: Value) -> Result<Value, PrimFault>
    ensures { DataMade place guard.now.actor own.now (view item) result }
{
    let alloc = guard.alloc();
    let mut dict = sender(alloc, place, own, guard.actor())?;
    match dict.put(key(alloc, b"data")?, item) {
        Ok(()) => Ok(value_of(alloc, dict)?),
        Err(ValueFault::TooHeavy) => Err(PrimFault::Fault(MufFault::TooHeavy)),
        Err(ValueFault::NoMemory) => Err(PrimFault::NoMemory),
    }
}

// The bytes of the name of an event.
fn event_bytes(alloc: Global, name: &[u8]) -> Result<Vec<u8>, NoMemory>
    ensures { IfOk result (λ bytes. bytes.items ≡ event_name name.now) }
{
    let mut bytes = b"USER.".to_vec(alloc)?;
    bytes.extend_from_slice(name)?;
    Ok(bytes)
}

// The name of an event.
#[tactic(auto, using(crate::proofs::Names::name_is_text))]
fn event_name(alloc: Global, name: &Text) -> Result<Text, PrimFault>
    ensures { NameMade (event_name name.now) result }
{
    let bytes = event_bytes(alloc, name.as_slice())?;
    if bytes.len() > TEXT_MOST {
        return Err(PrimFault::Fault(MufFault::TextTooLong));
    }
    let line = Line::of_text_vec(bytes);
    Ok(Text::new(alloc, line)?)
}

// The number of a process, the text upon it and what is to be sent.
fn sent(frame: &Frame) -> Option<(i32, &Text, &Value)>
    ensures { option_map (λ t. (t.0, t.1.now, view t.2.now)) result ≡ sent_in (flat frame.now).stack }
{
    let item = frame.peek(0)?;
    let name = frame.text_at(1)?;
    let pid = frame.int_at(2)?;
    Some((pid, name, item))
}

/// EVENT_SEND.
pub(crate) fn event_send(
    place: Place,
    own: &Process,
    queue: &Queue,
    guard: &Guard,
    frame: &Frame,
) -> Result<Plan, PrimFault>
    ensures { (w : Live) → Plans (event_send place guard.now.actor own.now (take 3 (flat frame.now).stack) w queue.now) place w queue.now result }
{
    let Some((pid, name, item)) = sent(frame) else {
        return Err(PrimFault::Fault(MufFault::BadType));
    };
    let Some(other) = queue.get(pid) else {
        return Ok(Plan::Nothing);
    };
    if other.events.len() >= EVENTS_MOST {
        return Err(PrimFault::Fault(MufFault::TooHeavy));
    }
    let name = event_name(guard.alloc(), name)?;
    let item = event_data(place, own, guard, item.copy()?)?;
    Ok(Plan::Send { pid, name, item })
}
