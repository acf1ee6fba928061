// Locks.
ghost use Rattle.std.specs.Prelude.{◌≡◌, IfOk, None, [], codes};
ghost use Rattle.spec_live.specs.Lives.{reading};
ghost use Rattle.spec_rights.specs.declared.act.Act.{Act};
ghost use Rattle.spec_commands.specs.Replies.{unlocked_reply};
ghost use Rattle.spec_commands.specs.Building.{key_read, lock_kept, lock_set, text_kept};
ghost use Rattle.muck_perm.specs.inner.Guards.{Did, IsLeave, world_of};

use crate::messages::keep;
use cmd_common::{Write, print_key, read_key, refuse, write_by_leave};
use muck_lock::LockFault;
use muck_model::{Dbref, Line, NoMemory};
use muck_perm::{Guard, Pass, verdict};
use spec_rights::Act;

// The text of the lock that the player means by a key; `None` exactly where it means none, or its text is too long.
fn printed_key(guard: &Guard, key: &Line) -> Result<Option<Line>, NoMemory>
    ensures { IfOk result (λ text. text ≡ key_read guard.now.actor.player key.now (world_of guard.now)) }
{
    match read_key(guard, key) {
        Ok(lock) => print_key(guard.alloc(), &lock),
        Err(LockFault::BadLock { .. }) => Ok(None),
        Err(LockFault::NoMemory) => Err(NoMemory),
    }
}

// Keeps a lock by leave, or tells the connection that the key means none.
#[tactic(auto, unfolding(spec_commands::specs::Replies::bad_key, spec_commands::specs::Replies::locked_reply, spec_live::specs::Lives::reading))]
fn lock_by(guard: &mut Guard, pass: Pass, d: u32, x: Dbref, key: &Line) -> Result<(), NoMemory>
    requires { IsLeave pass (Act.Change x) guard.old }
    ensures { Did (reading (key_read guard.old.actor.player key.now) (lock_kept d x)) guard.old guard.new result }
{
    let path = guard.db().paths().lock.copy(guard.alloc())?;
    match printed_key(guard, key)? {
        None => guard.tell(d, b"I don't understand that key."),
        Some(text) => write_by_leave(guard, pass, d, Write::Keep(x, path, text), b"Locked."),
    }
}

/// `@lock`: locks an object by a key, which is kept as it is printed.
#[tactic(auto, unfolding(spec_commands::specs::Building::lock_set, spec_live::specs::Lives::reading, spec_rights::specs::Asking::asked))]
pub fn lock(guard: &mut Guard, d: u32, x: Dbref, key: &Line) -> Result<(), NoMemory>
    ensures { Did (lock_set d guard.old.actor x key.now) guard.old guard.new result }
{
    let actor = guard.actor();
    match verdict(guard.db(), &actor, &Act::Change { object: x }) {
        Err(denial) => refuse(guard, d, denial),
        Ok(pass) => lock_by(guard, pass, d, x, key),
    }
}

/// `@unlock`: does away with the lock of an object.
#[tactic(auto, unfolding(spec_commands::specs::Building::text_kept, spec_commands::specs::Replies::unlocked_reply))]
pub fn unlock(guard: &mut Guard, d: u32, x: Dbref) -> Result<(), NoMemory>
    ensures { Did (text_kept d guard.old.actor x (codes "lok") [] unlocked_reply) guard.old guard.new result }
{
    let none = Line::of_text(guard.alloc(), b"")?;
    let path = guard.db().paths().lock.copy(guard.alloc())?;
    keep(guard, d, x, path, none, b"Unlocked.")
}
