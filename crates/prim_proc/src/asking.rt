// What is asked before a primitive is done.
ghost use Rattle.std.specs.Prelude.{◌≡◌, ◌≤◌, ◌<◌, ◌+◌, None, IfOk, length, drop, MatchResult};
ghost use Rattle.spec_rights.specs.Verdict.{verdict};
ghost use Rattle.muf_model.specs.declared.fault.MufFault.TheVariants.{StackFull};
ghost use Rattle.muf_model.specs.Answer.{stack_most};
ghost use Rattle.muf_model.specs.Prims.{primitive_level};
ghost use Rattle.muf_frame.specs.inner.Shown.{Shown, flat, locked_by};
ghost use Rattle.muck_perm.specs.inner.Guards.{objects_of, world_of};
ghost use Rattle.spec_prims.specs.Asking.{fault_of_denial};
ghost use Rattle.spec_prims.specs.Shared.{fault_by};
ghost use Rattle.prim_common.specs.inner.Tests.{Passes};
ghost use Rattle.spec_processes.specs.ProcessRows.{needs_at, program_fault, taken_at};

use muck_model::{Dbref, Kind};
use muck_perm::{Guard, verdict};
use muf_frame::Frame;
use muf_model::{MufFault, Need, Needs, Prim, STACK_MOST, Want};
use prim_common::{ready, ready_needing};
use spec_rights::Act;

// What CALL needs where a text is on the top: the name of a word, and a program.
const NAMED: Needs = Needs {
    fixed: &[
        Need {
            kind: Want::Text,
            there: false,
            near: false,
        },
        Need {
            kind: Want::Object,
            there: true,
            near: false,
        },
    ],
    many: None,
};

/// The tests that a primitive of processes begins with. The answer is the fault of the first that doesn't pass; where all pass
/// it is how many items the primitive takes, and these are there.
#[tactic(auto, unfolding(spec_prims::specs::Shared::first_fault), using(crate::proofs::Needing::needing_steps))]
pub(crate) fn ready_at(prim: Prim, guard: &Guard, frame: &Frame) -> Result<usize, MufFault>
    ensures count { IfOk result (λ n. n ≡ taken_at prim (flat frame.now).stack) }
    ensures there { IfOk result (λ n. n ≤ length frame.now.stack) }
    ensures pass { Passes (fault_by (needs_at prim (flat frame.now).stack) (primitive_level prim) None guard.now.actor (locked_by (flat frame.now).marks) (flat frame.now).stack (world_of guard.now)) result }
{
    match (prim, frame.text_at(0)) {
        (Prim::Call, Some(_)) => ready_needing(&NAMED, prim.level(), None, guard, frame),
        _ => ready(prim, None, guard, frame),
    }
}

/// Leave for an act.
pub(crate) fn permit(guard: &Guard, act: &Act) -> Result<(), MufFault>
    ensures { Passes (fault_of_denial (verdict (objects_of guard.now) guard.now.actor act.now)) result }
{
    match verdict(guard.db(), &guard.actor(), act) {
        Ok(_) => Ok(()),
        Err(denial) => Err(MufFault::Denied(denial.rule)),
    }
}

/// Whether the object of that number is a program.
pub(crate) fn test_program(guard: &Guard, d: Dbref) -> Result<(), MufFault>
    ensures { Passes (program_fault (objects_of guard.now) d.0) result }
{
    match guard.db().get(d) {
        Some(object) if matches!(object.kind(), Kind::Program) => Ok(()),
        _ => Err(MufFault::BadType),
    }
}

/// Whether there is room for so many items, once those that are taken are gone.
#[tactic(auto, using(crate::proofs::Room::room_steps))]
pub(crate) fn test_room(count: usize, taken: usize, frame: &Frame) -> Result<(), MufFault>
    requires { taken ≤ length frame.now.stack }
    ensures { MatchResult result (λ _. count + length (drop taken (flat frame.now).stack) ≤ stack_most) (λ f. (length (drop taken (flat frame.now).stack) ≤ stack_most) × (stack_most < count + length (drop taken (flat frame.now).stack)) × (f ≡ StackFull)) }
{
    if count > STACK_MOST - (frame.len() - taken) {
        return Err(MufFault::StackFull);
    }
    Ok(())
}
