// Nobody who shares a list, a dictionary or a frame's values sees what another one writes.
use crate::first_wrong;
use muck_model::{Line, LineFault, NoMemory};
use muf_frame::{Frame, Turns};
use muf_model::{MapKey, MufFault, Text, Value, ValueFault, ValueList, ValueMap};
use std::alloc::Global;
use std::sync::Arc;

fn line(alloc: Global, bytes: &[u8]) -> Result<Line, NoMemory> {
    match Line::new(alloc, bytes) {
        Ok(line) => Ok(line),
        Err(LineFault::NoMemory) | Err(LineFault::NotLine { .. }) => Err(NoMemory),
    }
}

fn name(alloc: Global, bytes: &[u8]) -> Result<MapKey, NoMemory> {
    Ok(MapKey::Name(Text::new(alloc, line(alloc, bytes)?)?))
}

// Whether a value is this integer.
fn is_int(value: Option<&Value>, number: i32) -> bool {
    match value {
        Some(Value::Int(n)) => *n == number,
        _ => false,
    }
}

// What became of a list or dictionary that isn't near its bounds.
fn done(answer: Result<(), ValueFault>) -> Result<(), NoMemory> {
    answer.or(Err(NoMemory))
}

#[test]
fn lists(rt: HostRuntime) -> Result<(), NoMemory> {
    let alloc = rt.alloc();
    let mut list = ValueList::new(alloc)?;
    done(list.push(Value::Int(4)))?;
    done(list.push(Value::Int(5)))?;
    let shared = Arc::new(alloc, list)?;
    let mut own = ValueList::unshare(shared.clone()?, alloc)?;
    if own.len() == 2 {
        done(own.put(0, Value::Int(9)))?;
    }
    done(own.push(Value::Int(6)))?;
    let holds = [
        is_int(own.get(0), 9),
        is_int(own.get(2), 6),
        own.get(3).is_none(),
        is_int(shared.get(0), 4),
        shared.len() == 2,
        ValueList::unshare(shared, alloc)?.len() == 2,
    ];
    assert_eq!(rt; first_wrong(&holds), None);
    Ok(())
}

#[test]
fn dictionaries(rt: HostRuntime) -> Result<(), NoMemory> {
    let alloc = rt.alloc();
    let mut dict = ValueMap::new(alloc)?;
    done(dict.put(name(alloc, b"b")?, Value::Int(1)))?;
    done(dict.put(MapKey::Number(5), Value::Int(2)))?;
    done(dict.put(name(alloc, b"a")?, Value::Int(3)))?;
    done(dict.put(MapKey::Number(-1), Value::Int(4)))?;
    let shared = Arc::new(alloc, dict)?;
    let mut own = ValueMap::unshare(shared.clone()?, alloc)?;
    done(own.put(MapKey::Number(5), Value::Int(6)))?;
    let value_at = |at: usize| own.as_slice().get(at).map(|pair| &pair.value);
    let holds = [
        own.len() == 4,
        is_int(own.get(&MapKey::Number(5)), 6),
        own.get(&MapKey::Number(0)).is_none(),
        is_int(own.get(&name(alloc, b"a")?), 3),
        is_int(shared.get(&MapKey::Number(5)), 2),
        is_int(value_at(0), 4),
        is_int(value_at(1), 6),
        is_int(value_at(2), 3),
        is_int(value_at(3), 1),
    ];
    assert_eq!(rt; first_wrong(&holds), None);
    Ok(())
}

// A frame with 1, 2 and 3, of which a TRY locks two, in a loop and in a call of a word.
fn nested(alloc: Global) -> Result<Frame, NoMemory> {
    let mut frame = Frame::new(alloc, line(alloc, b"text")?)?;
    let _argument = frame.pop();
    for number in [1, 2, 3] {
        let _room = frame.push(Value::Int(number));
    }
    if frame.opened() < 511 {
        frame.push_guard(2, 7);
        frame.push_loop(Turns::Plain, 1, 9);
    }
    if frame.calls() < 511 {
        frame.call(20, 1)?;
    }
    frame.set_units(77);
    Ok(frame)
}

#[test]
fn frames(rt: HostRuntime) -> Result<(), NoMemory> {
    let alloc = rt.alloc();
    let mut frame = nested(alloc)?;
    let mut copy = frame.copy(alloc)?;
    frame.cut(0);
    let holds = [
        frame.is_empty(),
        copy.len() == 3,
        copy.int_at(0) == Some(3),
        copy.locked() == 2,
        copy.opened() == 2,
        copy.calls() == 1,
        copy.place() == 20,
        copy.units() == 77,
        !copy.fault(alloc, &MufFault::PreemptTooLong)?,
        copy.len() == 3,
        copy.fault(alloc, &MufFault::BadType)?,
        copy.len() == 3,
        copy.place() == 7,
        copy.opened() == 0,
    ];
    assert_eq!(rt; first_wrong(&holds), None);
    Ok(())
}
