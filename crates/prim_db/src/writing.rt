// The rows of the primitives that change objects.
ghost use Rattle.std.specs.Prelude.{◌≡◌, take};
ghost use Rattle.muf_frame.specs.inner.Shown.{Shown, flat};
ghost use Rattle.muck_perm.specs.inner.Guards.{objects_of, world_of};
ghost use Rattle.muf_model.specs.declared.prims.Primitive.TheVariants.{MoveTo, SetLink, SetOwn};
ghost use Rattle.spec_prims.specs.ObjectWrites as row;
ghost use Rattle.prim_common.specs.inner.Applied.{Makes};

use crate::changing::{make_named, missing, rename, set, write};
use crate::locking::set_lock;
use cmd_common::{Write, home_at};
use muck_model::Dbref;
use muck_perm::{Guard, is_player_at, verdict};
use muf_frame::{Frame, PrimFault};
use muf_model::{MufFault, Prim, Text};
use prim_common::Made;
use spec_commands::New;
use spec_rights::Act;

const NOTHING: Dbref = Dbref(-1);

const HOME: Dbref = Dbref(-3);

/// What MOVETO says of its arguments: the place isn't there.
#[tactic(auto, using(crate::proofs::Taken::place_steps))]
pub(crate) fn place_missing(guard: &Guard, frame: &Frame) -> Option<MufFault>
    ensures { result ≡ row.place_missing guard.now.actor (take 2 (flat frame.now).stack) (world_of guard.now) }
{
    let to = frame.object_at(0)?;
    if to == HOME { None } else { missing(guard, to) }
}

// A place that is neither home nor near.
#[tactic(auto, unfolding(spec_prims::specs::Asking::near_fault))]
fn place_far(guard: &Guard, to: Dbref) -> Option<MufFault>
    ensures { result ≡ row.place_far guard.now.actor (objects_of guard.now) to }
{
    if to == HOME {
        return None;
    }
    match verdict(guard.db(), &guard.actor(), &Act::Near { object: to }) {
        Ok(_) => None,
        Err(denial) => Some(MufFault::Denied(denial.rule)),
    }
}

// MOVETO.
#[tactic(auto, using(crate::proofs::Granted::before))]
fn move_to(guard: &mut Guard, object: Dbref, to: Dbref) -> Result<Made, PrimFault>
    ensures { Makes (row.done_to_two MoveTo guard.old.actor object to (world_of guard.old)) guard.old guard.new result }
{
    match place_far(guard, to) {
        Some(fault) => Err(PrimFault::Fault(fault)),
        None => write(guard, Write::Place(object, to)),
    }
}

// A link that leads nowhere or home, or to what is there.
fn mislinked(guard: &Guard, to: Dbref) -> Option<MufFault>
    ensures { result ≡ row.mislinked to (world_of guard.now) }
{
    if to == NOTHING || to == HOME {
        return None;
    }
    missing(guard, to)
}

// SETLINK.
#[tactic(auto, using(crate::proofs::Granted::before))]
fn link(guard: &mut Guard, object: Dbref, to: Dbref) -> Result<Made, PrimFault>
    ensures { Makes (row.done_to_two SetLink guard.old.actor object to (world_of guard.old)) guard.old guard.new result }
{
    match mislinked(guard, to) {
        Some(fault) => Err(PrimFault::Fault(fault)),
        None => write(guard, Write::Link(object, to)),
    }
}

// SETOWN.
fn own(guard: &mut Guard, object: Dbref, owner: Dbref) -> Result<Made, PrimFault>
    ensures { Makes (row.done_to_two SetOwn guard.old.actor object owner (world_of guard.old)) guard.old guard.new result }
{
    if !is_player_at(guard.db(), object) && is_player_at(guard.db(), owner) {
        return write(guard, Write::Owner(object, owner));
    }
    Err(PrimFault::Fault(MufFault::BadArgument))
}

// Those of two objects.
fn of_two(prim: Prim, guard: &mut Guard, object: Dbref, to: Dbref) -> Result<Made, PrimFault>
    ensures { Makes (row.done_to_two prim guard.old.actor object to (world_of guard.old)) guard.old guard.new result }
{
    match prim {
        Prim::MoveTo => move_to(guard, object, to),
        Prim::SetLink => link(guard, object, to),
        Prim::SetOwn => own(guard, object, to),
        _ => Err(PrimFault::Fault(MufFault::BadType)),
    }
}

/// Those of two objects, as they stand.
#[tactic(auto, using(crate::proofs::Taken::two_steps))]
pub(crate) fn two(prim: Prim, guard: &mut Guard, frame: &Frame) -> Result<Made, PrimFault>
    ensures { Makes (row.two_done (row.done_to_two prim) guard.old.actor (take 2 (flat frame.now).stack) (world_of guard.old)) guard.old guard.new result }
{
    match (frame.object_at(0), frame.object_at(1)) {
        (Some(to), Some(object)) => of_two(prim, guard, object, to),
        _ => Err(PrimFault::Fault(MufFault::BadType)),
    }
}

/// RECYCLE.
#[tactic(auto, using(crate::proofs::Taken::one_steps))]
pub(crate) fn recycle(guard: &mut Guard, frame: &Frame) -> Result<Made, PrimFault>
    ensures { Makes (row.one_done row.thrown_away guard.old.actor (take 1 (flat frame.now).stack) (world_of guard.old)) guard.old guard.new result }
{
    match frame.object_at(0) {
        Some(object) => write(guard, Write::Recycle(object)),
        None => Err(PrimFault::Fault(MufFault::BadType)),
    }
}

// Those of a text for an object.
fn of_text(prim: Prim, guard: &mut Guard, object: Dbref, text: &Text) -> Result<Made, PrimFault>
    ensures { Makes (row.done_by_text prim guard.old.actor object text.now (world_of guard.old)) guard.old guard.new result }
{
    match prim {
        Prim::SetName => rename(guard, object, text),
        Prim::Set => set(guard, object, text),
        Prim::SetLockStr => set_lock(guard, object, text),
        Prim::NewRoom => make_named(guard, New::Room, text, object),
        Prim::NewObject => {
            let home = home_at(guard, guard.actor().user);
            make_named(guard, New::Thing(home), text, object)
        }
        Prim::NewExit => make_named(guard, New::Exit(NOTHING), text, object),
        _ => Err(PrimFault::Fault(MufFault::BadType)),
    }
}

/// Those of a text for an object, as they stand.
#[tactic(auto, using(crate::proofs::Taken::text_steps))]
pub(crate) fn named(prim: Prim, guard: &mut Guard, frame: &Frame) -> Result<Made, PrimFault>
    ensures { Makes (row.text_done (row.done_by_text prim) guard.old.actor (take 2 (flat frame.now).stack) (world_of guard.old)) guard.old guard.new result }
{
    match (frame.text_at(0), frame.object_at(1)) {
        (Some(text), Some(object)) => of_text(prim, guard, object, text),
        _ => Err(PrimFault::Fault(MufFault::BadType)),
    }
}
