// Every primitive of properties.
ghost use Rattle.std.specs.Prelude.{◌≡◌, ℕ, Option, is_some, take, true};
ghost use Rattle.muf_model.specs.declared.prims.Family.TheVariants.{Property};
ghost use Rattle.muf_model.specs.Prims.{family_of, is_usable};
ghost use Rattle.muf_frame.specs.inner.Shown.{Shown, flat, locked_by};
ghost use Rattle.muck_perm.specs.inner.Guards.{objects_of, world_of};
ghost use Rattle.spec_rights.specs.Licence.{Licensed, nobody};
ghost use Rattle.spec_mpi.specs.Touching.{TouchesNotes};
ghost use Rattle.spec_prims.specs.Formulas.{is_formula, answers_for};
ghost use Rattle.spec_prims.specs.PropRows.{property_row};
ghost use Rattle.spec_prims.specs.Shared.{shared, items_taken};
ghost use Rattle.prim_common.specs.inner.Applied.{Applied, Makes, OnAnswer, does_of};

use crate::formulas::parse;
use crate::looking::{Form, Look, look_at};
use crate::seeking::seek;
use crate::walking::walk;
use crate::writing::{add, put, remove};
use muck_perm::Guard;
use muf_frame::{Frame, PrimFault};
use muf_model::{MufFault, Prim};
use prim_common::{Made, give, ready};

// What a primitive makes of the items that it takes.
#[tactic(auto, using(crate::proofs::Missing::no_row))]
fn made(prim: Prim, guard: &mut Guard, frame: &Frame) -> Result<Made, PrimFault>
    ensures { Makes (does_of (property_row prim) guard.old.actor (take (items_taken prim (flat frame.now).stack) (flat frame.now).stack) (world_of guard.old)) guard.old guard.new result }
{
    match prim {
        Prim::GetProp => look_at(Look::Held(Form::Item), guard, frame),
        Prim::GetPropStr => look_at(Look::Held(Form::Text), guard, frame),
        Prim::GetPropVal => look_at(Look::Held(Form::Number), guard, frame),
        Prim::IsPropDir => look_at(Look::Below, guard, frame),
        Prim::EnvProp => seek(Form::Item, guard, frame),
        Prim::EnvPropStr => seek(Form::Text, guard, frame),
        Prim::NextProp => walk(guard, frame),
        Prim::SetProp => put(guard, frame),
        Prim::AddProp => add(guard, frame),
        Prim::RemoveProp => remove(guard, frame),
        Prim::ParseMpi => parse(guard, frame),
        _ => Err(PrimFault::Fault(MufFault::NotCompiled)),
    }
}

/// Uses a primitive of properties, as the actor to whom the guard lends the world: the frame and the world are as its row
/// says, or it is refused by the fault of the row and both are unchanged; but where a formula breaks off, what it changed before
/// stays. Either way what changed is open to that actor, and what a formula changed to the player, by the player's own rights (`licensed`);
/// a formula touches notes alone (`notes`). Those that may be used are those with a row; of the others `NotCompiled` comes. After `NoMemory` nothing is said of the
/// frame and of the world.
pub fn apply(prim: Prim, guard: &mut Guard, frame: &mut Frame) -> Result<(), PrimFault>
    requires { family_of prim ≡ Property }
    ensures row { (descr : Option ℕ) → Applied (shared prim guard.old.actor descr (locked_by (flat frame.old).marks) (flat frame.old).stack (world_of guard.old)) frame.old frame.new guard.old guard.new result }
    ensures licensed { OnAnswer result (Licensed (answers_for prim guard.old.actor (objects_of guard.old)) nobody (world_of guard.old) (world_of guard.new)) }
    ensures notes { is_formula prim ≡ true → OnAnswer result (TouchesNotes (world_of guard.old) (world_of guard.new)) }
    ensures there { is_usable prim ≡ is_some (property_row prim) }
{
    let taken = ready(prim, None, guard, frame)?;
    let made = made(prim, guard, frame)?;
    give(frame, taken, made)?;
    Ok(())
}
