// What functions make of their arguments, once these are evaluated.
ghost use Rattle.std.specs.Prelude.{◌≡◌, None, IfOk, option_map};
ghost use Rattle.std.specs.FinMap as map;
ghost use Rattle.muck_model.specs.Bytes.{text_fault};
ghost use Rattle.mpi.specs.Meaning.{scene_of, object_named, object_argument, both_objects, same_object, reference, ask_of, deed_of, given_by, diced, variable_row, acted_by};
ghost use Rattle.mpi.specs.declared.functions.Group.TheVariants as group;
ghost use Rattle.mpi.specs.Thoughts.{Thinks, OnMind, found_or_bad};
ghost use Rattle.mpi.specs.Hosting.{Means};
ghost use Rattle.mpi.specs.Values.{nth};

use crate::argument::Argument;
use crate::fault::MpiFault;
use crate::functions::{Function, Group};
use crate::host::{Ask, Deed, Host};
use crate::mind::Mind;
use crate::rows::text_of;
use crate::texts::{number, reference, truth};
use crate::values::{computed, nth, number_of, test_of};
use muck_model::{Dbref, Line, NoMemory};
use std::alloc::Global;

/// Where a text is evaluated: for the object that carries it.
#[derive(Clone, Copy)]
pub(crate) struct Place {
    pub(crate) alloc: Global,
    pub(crate) this: Dbref,
}

// The object that a text names.
fn object_named<H: Host>(place: Place, host: &H, text: &Line) -> Option<Dbref>
    ensures { result ≡ object_named (scene_of H.powers place.this) text.now (H.seen host.now) }
{
    if text.as_slice().eq_ignore_ascii_case(b"this") {
        return Some(place.this);
    }
    match host.find(text) {
        Some(d) if d.0 >= 0 => Some(d),
        _ => None,
    }
}

// The object that the argument at that place names; left out it is the default.
#[tactic(auto, unfolding(crate::specs::Meaning::object_argument))]
fn object_at<H: Host>(
    place: Place,
    host: &H,
    default: Dbref,
    at: usize,
    values: &[Argument<'_>],
) -> Result<Dbref, MpiFault>
    ensures { Means (found_or_bad (object_argument default at (scene_of H.powers place.this) values.now (H.seen host.now))) result }
{
    match values.get(at) {
        None => Ok(default),
        Some(text) => {
            let text = Line::of_text(place.alloc, text.as_slice())?;
            object_named(place, host, &text).ok_or(MpiFault::BadValue)
        }
    }
}

/// A copy of the argument at that place.
pub(crate) fn own(alloc: Global, values: &[Argument<'_>], at: usize) -> Result<Line, NoMemory>
    ensures { IfOk result (λ line. line ≡ nth at values.now) }
{
    Line::of_text(alloc, nth(values, at))
}

// What a function asks of the host.
fn ask_of<H: Host>(
    place: Place,
    host: &H,
    function: Function,
    values: &[Argument<'_>],
) -> Result<Ask, MpiFault>
    ensures { Means (found_or_bad (ask_of function (scene_of H.powers place.this) values.now (H.seen host.now))) result }
{
    let at = match function {
        Function::Prop | Function::PropHere | Function::PropDir => 1,
        _ => 0,
    };
    let object = object_at(place, host, place.this, at, values)?;
    match function {
        Function::Name => Ok(Ask::Name(object)),
        Function::Loc => Ok(Ask::Loc(object)),
        Function::Owner => Ok(Ask::Owner(object)),
        Function::Kind => Ok(Ask::Kind(object)),
        Function::Flags => Ok(Ask::Flags(object)),
        Function::Contents => Ok(Ask::Contents(object)),
        Function::Exits => Ok(Ask::Exits(object)),
        Function::Controls => Ok(Ask::Controls(object)),
        Function::Holds => Ok(Ask::Holds(object, object_at(place, host, place.this, 1, values)?)),
        Function::Prop => Ok(Ask::Prop(own(place.alloc, values, 0)?, object)),
        Function::PropHere => Ok(Ask::PropHere(own(place.alloc, values, 0)?, object)),
        Function::PropDir => Ok(Ask::PropDir(own(place.alloc, values, 0)?, object)),
        _ => Err(MpiFault::BadValue),
    }
}

// What a function has the host do.
fn deed_of<H: Host>(
    place: Place,
    host: &H,
    function: Function,
    values: &[Argument<'_>],
) -> Result<Deed, MpiFault>
    ensures { Means (found_or_bad (deed_of function (scene_of H.powers place.this) values.now (H.seen host.now))) result }
{
    match function {
        Function::Store => {
            let object = object_at(place, host, place.this, 2, values)?;
            let text = own(place.alloc, values, 0)?;
            let path = own(place.alloc, values, 1)?;
            Ok(Deed::Store { text, path, object })
        }
        Function::DelProp => {
            let object = object_at(place, host, place.this, 1, values)?;
            let path = own(place.alloc, values, 0)?;
            Ok(Deed::DelProp { path, object })
        }
        Function::Tell => {
            let to = object_at(place, host, host.player(), 1, values)?;
            let text = own(place.alloc, values, 0)?;
            Ok(Deed::Tell { text, to })
        }
        Function::Otell => {
            let room = object_at(place, host, host.here(), 1, values)?;
            let text = own(place.alloc, values, 0)?;
            Ok(Deed::Otell { text, room })
        }
        _ => Err(MpiFault::BadValue),
    }
}

// The text that a deed gives; none where a property is taken away.
fn given_by(alloc: Global, deed: &Deed) -> Result<Line, NoMemory>
    ensures { IfOk result (λ line. line ≡ given_by deed.now) }
{
    match deed {
        Deed::DelProp { .. } => Line::of_text(alloc, &[]),
        Deed::Store { text, .. } => text.copy(alloc),
        Deed::Tell { text, .. } => text.copy(alloc),
        Deed::Otell { text, .. } => text.copy(alloc),
    }
}

// A deed, and the text that its function gives.
fn does<H: Host>(
    place: Place,
    host: &mut H,
    mind: &mut Mind,
    function: Function,
    values: &[Argument<'_>],
) -> Result<Line, MpiFault>
    ensures thinks { Thinks (acted_by group.Deed function (scene_of H.powers place.this) values.now) (mind.old, H.seen host.old) (mind.new, H.seen host.new) result }
    ensures same { H.same host.old host.new }
{
    let deed = deed_of(place, host, function, values)?;
    let given = given_by(place.alloc, &deed)?;
    host.does(place.alloc, &deed)?;
    Ok(given)
}

// The number of an object.
fn reference_of<H: Host>(place: Place, host: &H, values: &[Argument<'_>]) -> Result<Line, MpiFault>
    ensures { Means (found_or_bad (option_map reference (object_argument place.this 0 (scene_of H.powers place.this) values.now (H.seen host.now)))) result }
{
    let object = object_at(place, host, place.this, 0, values)?;
    Ok(reference(place.alloc, object)?)
}

// Whether two objects are one.
fn same_objects<H: Host>(place: Place, host: &H, values: &[Argument<'_>]) -> Result<Line, MpiFault>
    ensures { Means (found_or_bad (both_objects same_object (scene_of H.powers place.this) values.now (H.seen host.now))) result }
{
    let object = object_at(place, host, place.this, 0, values)?;
    let other = object_at(place, host, place.this, 1, values)?;
    Ok(truth(place.alloc, object == other)?)
}

// A random number up to n; none is drawn where n is below 1.
#[tactic(auto, using(crate::proofs::Thinking::thinking), unfolding(crate::specs::Meaning::diced))]
fn diced<H: Host>(place: Place, host: &mut H, mind: &mut Mind, n: i32) -> Result<Line, MpiFault>
    ensures thinks { Thinks (diced (scene_of H.powers place.this) n) (mind.old, H.seen host.old) (mind.new, H.seen host.new) result }
    ensures same { H.same host.old host.new }
{
    if n < 1 {
        return Ok(Line::of_text(place.alloc, b"0")?);
    }
    let word = (host.random() >> 1) as i32;
    Ok(number(place.alloc, 1 + word % n)?)
}

/// The value of a variable.
pub(crate) fn value_of(alloc: Global, mind: &Mind, name: &[u8]) -> Result<Line, MpiFault>
    requires { text_fault name.now ≡ None }
    ensures { Means (found_or_bad (map.get mind.now.variables name.now)) result }
{
    let name = Line::of_text(alloc, name)?;
    match mind.variables.get(&name) {
        Some(value) => Ok(value.copy(alloc)?),
        None => Err(MpiFault::BadValue),
    }
}

// The functions of variables.
#[tactic(auto, using(crate::proofs::Thinking::thinking), unfolding(crate::specs::Meaning::variable_row))]
fn on_variable(
    alloc: Global,
    mind: &mut Mind,
    function: Function,
    values: &[Argument<'_>],
) -> Result<Line, MpiFault>
    ensures { OnMind (variable_row function (nth 0 values.now) (nth 1 values.now)) mind.old mind.new result }
{
    let name = nth(values, 0);
    let old = value_of(alloc, mind, name)?;
    let new = match function {
        Function::Set => own(alloc, values, 1)?,
        Function::Increase => number(alloc, number_of(old.as_slice()).wrapping_add(1))?,
        Function::Decrease => number(alloc, number_of(old.as_slice()).wrapping_sub(1))?,
        _ => return Ok(old),
    };
    let given = new.copy(alloc)?;
    mind.set(alloc, name, new)?;
    Ok(given)
}

/// What a function makes of its arguments, by what it needs beside them.
#[tactic(auto, using(crate::proofs::Thinking::thinking), unfolding(crate::specs::Meaning::acted_by))]
pub(crate) fn act<H: Host>(
    place: Place,
    host: &mut H,
    mind: &mut Mind,
    group: Group,
    function: Function,
    values: &[Argument<'_>],
) -> Result<Line, MpiFault>
    ensures thinks { Thinks (acted_by group function (scene_of H.powers place.this) values.now) (mind.old, H.seen host.old) (mind.new, H.seen host.new) result }
    ensures same { H.same host.old host.new }
{
    let alloc = place.alloc;
    match group {
        Group::Variable => on_variable(alloc, mind, function, values),
        Group::Test => {
            let holds = test_of(alloc, function, nth(values, 0), nth(values, 1))?;
            Ok(truth(alloc, holds)?)
        }
        Group::Number => Ok(number(alloc, computed(function, values))?),
        Group::Text => text_of(alloc, function, values),
        Group::Chance => diced(place, host, mind, number_of(nth(values, 0))),
        Group::Reference => reference_of(place, host, values),
        Group::Same => same_objects(place, host, values),
        Group::Ask => {
            let ask = ask_of(place, host, function, values)?;
            host.tells(alloc, &ask)
        }
        Group::Deed => does(place, host, mind, function, values),
    }
}
