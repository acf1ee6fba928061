// Changing objects by leave, as the rows have it.
ghost use Rattle.std.specs.Prelude.{◌≡◌, ◌≤◌, length, true};
ghost use Rattle.spec_live.specs.Making.{create_check};
ghost use Rattle.muck_perm.specs.inner.Guards.{IsLeave, objects_of, world_of};
ghost use Rattle.spec_commands.specs.Building.{act_in, kind_made, may_be};
ghost use Rattle.spec_commands.specs.Settings.{setting_asked};
ghost use Rattle.cmd_common.specs.inner.Writes.{IsFit, act_of, change_of, may};
ghost use Rattle.spec_prims.specs.ObjectWrites as row;
ghost use Rattle.prim_common.specs.inner.Applied.{Makes};
ghost use Rattle.prim_db.specs.inner.Changed.{IsMade, Leaves};

use cmd_common::{Write, act_in, act_of, create, is_name, may_be, may_be_called, put};
use muck_model::{Dbref, Line};
use muck_perm::{Guard, Pass, verdict};
use muf_frame::PrimFault;
use muf_model::{MufFault, Text, Value};
use prim_common::Made;
use spec_commands::{New, setting_asked};
use spec_live::DbFault;
use spec_rights::Act;

/// Leave for an act.
pub(crate) fn leave<'a>(guard: &Guard, act: &'a Act) -> Result<Pass<'a>, PrimFault>
    ensures { Leaves act.now guard.now result }
{
    match verdict(guard.db(), &guard.actor(), act) {
        Ok(pass) => Ok(pass),
        Err(denial) => Err(PrimFault::Fault(MufFault::Denied(denial.rule))),
    }
}

/// Writes by leave, where the world allows it.
#[tactic(auto, using(crate::proofs::Granted::changing))]
pub(crate) fn write(guard: &mut Guard, write: Write) -> Result<Made, PrimFault>
    requires { IsFit write }
    ensures { Makes (row.changed_with_leave guard.old.actor (act_of write) (may write (world_of guard.old)) (change_of write) (world_of guard.old)) guard.old guard.new result }
{
    let act = act_of(&write);
    let pass = leave(guard, &act)?;
    match put(guard, pass, write) {
        Ok(()) => Ok(Made::Nothing),
        Err(DbFault::NoMemory) => Err(PrimFault::NoMemory),
        Err(_) => Err(PrimFault::Fault(MufFault::BadArgument)),
    }
}

// The number of what was made, or why nothing was.
fn number_made(made: Result<Dbref, DbFault>) -> Result<Made, PrimFault>
    ensures { IsMade made result }
{
    match made {
        Ok(object) => Ok(Made::One(Value::Ref(object))),
        Err(DbFault::NoMemory) => Err(PrimFault::NoMemory),
        Err(DbFault::WorldFull) => Err(PrimFault::Fault(MufFault::WorldFull)),
        Err(_) => Err(PrimFault::Fault(MufFault::BadArgument)),
    }
}

// Makes it by leave, where the world allows it.
#[tactic(auto, using(crate::proofs::Granted::number_given))]
fn make_by(
    guard: &mut Guard,
    pass: Pass,
    new: New,
    name: Line,
    place: Dbref,
) -> Result<Made, PrimFault>
    requires leave { IsLeave pass (act_in place new) guard.old }
    requires some { 1 ≤ length name }
    requires short { length name ≤ 80 }
    requires fits { may_be new (world_of guard.old) ≡ true }
    ensures { Makes (row.given_made (create_check (kind_made new) guard.old.actor.user place (objects_of guard.old)) (row.made_so new name guard.old.actor.user) (world_of guard.old)) guard.old guard.new result }
{
    let made = create(guard, pass, new, name, place);
    number_made(made)
}

// Makes it in a place, by leave.
#[tactic(auto, using(crate::proofs::Granted::creating))]
fn make(guard: &mut Guard, new: New, name: &Text, place: Dbref) -> Result<Made, PrimFault>
    requires some { 1 ≤ length name.now }
    requires short { length name.now ≤ 80 }
    ensures { Makes (row.new_made guard.old.actor new name.now place (world_of guard.old)) guard.old guard.new result }
{
    let name = name.as_line().copy(guard.alloc())?;
    let act = act_in(place, new);
    let pass = leave(guard, &act)?;
    if may_be(guard, new) {
        return make_by(guard, pass, new, name, place);
    }
    Err(PrimFault::Fault(MufFault::BadArgument))
}

/// Makes it in a place, where its name is one.
pub(crate) fn make_named(
    guard: &mut Guard,
    new: New,
    name: &Text,
    place: Dbref,
) -> Result<Made, PrimFault>
    ensures { Makes (row.made_named guard.old.actor new name.now place (world_of guard.old)) guard.old guard.new result }
{
    if is_name(name.as_slice()) {
        return make(guard, new, name, place);
    }
    Err(PrimFault::Fault(MufFault::BadArgument))
}

/// Renames an object, where it may be called so.
pub(crate) fn rename(guard: &mut Guard, object: Dbref, name: &Text) -> Result<Made, PrimFault>
    ensures { Makes (row.renamed guard.old.actor object name.now (world_of guard.old)) guard.old guard.new result }
{
    let line = name.as_line().copy(guard.alloc())?;
    if may_be_called(guard, object, name.as_slice()) {
        return write(guard, Write::Name(object, line));
    }
    Err(PrimFault::Fault(MufFault::BadArgument))
}

/// Sets or clears a flag, or gives a level.
#[tactic(auto, using(crate::proofs::Granted::changing))]
pub(crate) fn set(guard: &mut Guard, object: Dbref, text: &Text) -> Result<Made, PrimFault>
    ensures { Makes (row.set_by guard.old.actor object (setting_asked text.now) (world_of guard.old)) guard.old guard.new result }
{
    match setting_asked(text.as_slice()) {
        Some(setting) => write(guard, Write::Set(object, setting)),
        None => Err(PrimFault::Fault(MufFault::BadArgument)),
    }
}

/// The fault of a number that names no object.
#[tactic(auto, unfolding(spec_prims::specs::Asking::is_number_there))]
pub(crate) fn missing(guard: &Guard, object: Dbref) -> Option<MufFault>
    ensures { result ≡ row.missing (objects_of guard.now) object }
{
    match guard.db().get(object) {
        Some(_) => None,
        None => Some(MufFault::NoSuchObject),
    }
}
