// Locks, as a player writes them.
ghost use Rattle.std.specs.Prelude.{◌≡◌};
ghost use Rattle.muck_lock.specs.Grammar.{lock_of};
ghost use Rattle.spec_rights.specs.declared.act.Act.{Act};
ghost use Rattle.spec_commands.specs.Building.{key_kept, key_names};
ghost use Rattle.muck_perm.specs.inner.Guards.{IsLeave, world_of};
ghost use Rattle.spec_prims.specs.ObjectWrites as row;
ghost use Rattle.prim_common.specs.inner.Applied.{Makes};

use crate::changing::leave;
use cmd_common::{Write, print_key, put, read_key};
use muck_lock::LockFault;
use muck_model::{Dbref, Line, Lock};
use muck_perm::{Guard, Pass};
use muf_frame::PrimFault;
use muf_model::{MufFault, Text, Value};
use prim_common::Made;
use spec_live::DbFault;
use spec_rights::Act;

// Keeps the text of a lock.
#[tactic(auto, using(crate::proofs::Granted::keeping))]
fn keep(guard: &mut Guard, pass: Pass, object: Dbref, text: Line) -> Result<Made, PrimFault>
    requires { IsLeave pass (Act.Change object) guard.old }
    ensures { Makes (row.lock_put object (Some text) (world_of guard.old)) guard.old guard.new result }
{
    let path = guard.db().paths().lock.copy(guard.alloc())?;
    match put(guard, pass, Write::Keep(object, path, text)) {
        Ok(()) => Ok(Made::One(Value::truth(true))),
        Err(DbFault::NoMemory) => Err(PrimFault::NoMemory),
        Err(_) => Err(PrimFault::Fault(MufFault::BadArgument)),
    }
}

// Keeps a lock as it is printed, where that isn't too long.
#[tactic(auto, using(crate::proofs::Granted::keeping))]
fn keep_printed(
    guard: &mut Guard,
    pass: Pass,
    object: Dbref,
    lock: &Lock,
) -> Result<Made, PrimFault>
    requires { IsLeave pass (Act.Change object) guard.old }
    ensures { Makes (row.lock_put object (key_kept (Ok lock.now)) (world_of guard.old)) guard.old guard.new result }
{
    match print_key(guard.alloc(), lock)? {
        Some(text) => keep(guard, pass, object, text),
        None => Err(PrimFault::Fault(MufFault::BadArgument)),
    }
}

// Keeps the lock that the player means by a text, by leave.
#[tactic(auto, using(crate::proofs::Granted::keeping))]
fn keep_read(guard: &mut Guard, pass: Pass, object: Dbref, text: &Text) -> Result<Made, PrimFault>
    requires { IsLeave pass (Act.Change object) guard.old }
    ensures { Makes (row.key_kept_of object (lock_of (key_names (world_of guard.old) guard.old.actor.player) text.now) (world_of guard.old)) guard.old guard.new result }
{
    match read_key(guard, text.as_line()) {
        Ok(lock) => keep_printed(guard, pass, object, &lock),
        Err(LockFault::BadLock { .. }) => Ok(Made::One(Value::truth(false))),
        Err(LockFault::NoMemory) => Err(PrimFault::NoMemory),
    }
}

/// SETLOCKSTR.
#[tactic(auto, using(crate::proofs::Granted::locking))]
pub(crate) fn set_lock(guard: &mut Guard, object: Dbref, text: &Text) -> Result<Made, PrimFault>
    ensures { Makes (row.locked_by guard.old.actor object text.now (world_of guard.old)) guard.old guard.new result }
{
    let act = Act::Change { object };
    let pass = leave(guard, &act)?;
    keep_read(guard, pass, object, text)
}
