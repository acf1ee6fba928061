// What formulas do.
ghost use Rattle.std.specs.Prelude.{◌≡◌};
ghost use Rattle.mpi.specs.Hosting.{Meant};
ghost use Rattle.muck_prop.specs.declared.value.PropValue.TheVariants.{Text};
ghost use Rattle.spec_live.specs.Lives.{tell_player, tell_others};
ghost use Rattle.spec_rights.specs.Changing.{property_stored, unstored};
ghost use Rattle.muck_perm.specs.inner.Guards.{Same};
ghost use Rattle.spec_mpi.specs.Doing.{stage_changed, path_written, does_in};
ghost use Rattle.muck_mpi.specs.inner.Seeing.{stage_of, IsWritten, Did};

use crate::properties::path_of;
use mpi::{Deed, MpiFault};
use muck_model::{Dbref, Line};
use muck_perm::{Guard, verdict};
use muck_prop::PropValue;
use spec_live::DbFault;
use spec_rights::Act;

// What a writer has answered of an object that is there.
fn written(answer: Result<(), DbFault>) -> Result<(), MpiFault>
    ensures { IsWritten answer result }
{
    match answer {
        Ok(()) => Ok(()),
        Err(_) => Err(MpiFault::NoMemory),
    }
}

// Stores a text as a property, by leave.
fn store(guard: &mut Guard, object: Dbref, path: &Line, text: &Line) -> Result<(), MpiFault>
    ensures { Did (path_written object path.now (λ p. property_stored object p (Text text.now)) (stage_of guard.old)) guard.old guard.new result }
{
    if guard.db().get(object).is_none() {
        return Err(MpiFault::BadValue);
    }
    let alloc = guard.alloc();
    let path = path_of(alloc, path)?;
    let value = PropValue::Text(text.copy(alloc)?);
    let act = Act::Write {
        object,
        path: path.copy(alloc)?,
    };
    match verdict(guard.db(), &guard.actor(), &act) {
        Ok(pass) => written(guard.store(pass, object, path, value)),
        Err(denial) => Err(MpiFault::Denied(denial.rule)),
    }
}

// Takes a property away, by leave.
fn unstore(guard: &mut Guard, object: Dbref, path: &Line) -> Result<(), MpiFault>
    ensures { Did (path_written object path.now (λ p. unstored object p) (stage_of guard.old)) guard.old guard.new result }
{
    if guard.db().get(object).is_none() {
        return Err(MpiFault::BadValue);
    }
    let alloc = guard.alloc();
    let path = path_of(alloc, path)?;
    let act = Act::Write {
        object,
        path: path.copy(alloc)?,
    };
    match verdict(guard.db(), &guard.actor(), &act) {
        Ok(pass) => written(guard.unstore(pass, object, &path)),
        Err(denial) => Err(MpiFault::Denied(denial.rule)),
    }
}

fn tell(guard: &mut Guard, player: Dbref, text: &Line) -> Result<(), MpiFault>
    ensures { Did (stage_changed (tell_player player text.now) (stage_of guard.old)) guard.old guard.new result }
{
    guard.tell_player(player, text.as_slice())?;
    Ok(())
}

fn tell_others(guard: &mut Guard, room: Dbref, text: &Line) -> Result<(), MpiFault>
    ensures { Did (stage_changed (tell_others room guard.old.actor.player text.now) (stage_of guard.old)) guard.old guard.new result }
{
    let player = guard.actor().player;
    guard.tell_others(room, player, text.as_slice())?;
    Ok(())
}

/// Does a deed.
pub(crate) fn does(guard: &mut Guard, deed: &Deed) -> Result<(), MpiFault>
    ensures { Did (does_in deed.now (stage_of guard.old)) guard.old guard.new result }
{
    match deed {
        Deed::Store { text, path, object } => store(guard, *object, path, text),
        Deed::DelProp { path, object } => unstore(guard, *object, path),
        Deed::Tell { text, to } => tell(guard, *to, text),
        Deed::Otell { text, room } => tell_others(guard, *room, text),
    }
}
