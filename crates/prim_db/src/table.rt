// Every primitive of objects.
ghost use Rattle.std.specs.Prelude.{◌≡◌, ℕ, Option, is_some, take};
ghost use Rattle.muf_model.specs.declared.prims.Family.TheVariants.{Object};
ghost use Rattle.muf_model.specs.Prims.{family_of, is_usable};
ghost use Rattle.muf_frame.specs.inner.Shown.{Shown, flat, locked_by};
ghost use Rattle.muck_perm.specs.inner.Guards.{world_of};
ghost use Rattle.spec_rights.specs.Licence.{Licensed, nobody};
ghost use Rattle.spec_prims.specs.Shared.{shared, items_taken};
ghost use Rattle.spec_prims.specs.ObjectRows.{object_row};
ghost use Rattle.prim_common.specs.inner.Applied.{Applied, Makes, OnAnswer, argued_of, does_of};

use crate::finding::found;
use crate::{flags, writing};
use muck_perm::Guard;
use muf_frame::{Frame, PrimFault};
use muf_model::{MufFault, Prim};
use prim_common::{Made, give, ready};

// What a primitive says of its arguments, as they stand.
#[tactic(auto, using(crate::proofs::Rules::found_rule))]
fn argued(prim: Prim, guard: &Guard, frame: &Frame) -> Option<MufFault>
    ensures { result ≡ argued_of (object_row prim) guard.now.actor (take (items_taken prim (flat frame.now).stack) (flat frame.now).stack) (world_of guard.now) }
{
    match prim {
        Prim::MoveTo => writing::place_missing(guard, frame),
        _ => flags::argued(prim, frame),
    }
}

// What a primitive makes of the items that it takes.
#[tactic(auto, using(crate::proofs::Objects::making))]
fn made(prim: Prim, guard: &mut Guard, frame: &Frame) -> Result<Made, PrimFault>
    ensures { Makes (does_of (object_row prim) guard.old.actor (take (items_taken prim (flat frame.now).stack) (flat frame.now).stack) (world_of guard.old)) guard.old guard.new result }
{
    match prim {
        Prim::MoveTo | Prim::SetLink | Prim::SetOwn => writing::two(prim, guard, frame),
        Prim::Recycle => writing::recycle(guard, frame),
        Prim::SetName
        | Prim::Set
        | Prim::SetLockStr
        | Prim::NewRoom
        | Prim::NewObject
        | Prim::NewExit => writing::named(prim, guard, frame),
        _ => Ok(Made::One(found(prim, guard, frame)?)),
    }
}

/// Uses a primitive of objects, as the actor to whom the guard lends the world: the frame and the world are as its row
/// says, or it is refused by the fault of the row and both are unchanged. Either way what changed is open to that actor (`licensed`).
/// Those that may be used so far are those with a row; of the others `NotCompiled` comes. After `NoMemory` nothing is said of the frame and of the world.
#[tactic(auto, using(crate::proofs::Objects::row_there))]
pub fn apply(prim: Prim, guard: &mut Guard, frame: &mut Frame) -> Result<(), PrimFault>
    requires { family_of prim ≡ Object }
    ensures row { (descr : Option ℕ) → Applied (shared prim guard.old.actor descr (locked_by (flat frame.old).marks) (flat frame.old).stack (world_of guard.old)) frame.old frame.new guard.old guard.new result }
    ensures licensed { OnAnswer result (Licensed guard.old.actor nobody (world_of guard.old) (world_of guard.new)) }
    ensures there { is_usable prim ≡ is_some (object_row prim) }
{
    let argued = argued(prim, guard, frame);
    let taken = ready(prim, argued, guard, frame)?;
    let made = made(prim, guard, frame)?;
    give(frame, taken, made)?;
    Ok(())
}
