// Every primitive of talk.
ghost use Rattle.std.specs.Prelude.{◌≡◌, is_some, take, ℕ, Option};
ghost use Rattle.muf_model.specs.declared.prims.Family.TheVariants.{Talk};
ghost use Rattle.muf_model.specs.Prims.{family_of, is_usable};
ghost use Rattle.muf_frame.specs.inner.Shown.{Shown, flat, locked_by};
ghost use Rattle.muck_perm.specs.inner.Guards.{world_of};
ghost use Rattle.spec_rights.specs.Licence.{Licensed, nobody};
ghost use Rattle.spec_prims.specs.Shared.{shared, items_taken};
ghost use Rattle.spec_prims.specs.Talk.{talk_row};
ghost use Rattle.prim_common.specs.inner.Applied.{Applied, Makes, OnAnswer, argued_of, does_of};

use crate::rows;
use muck_perm::Guard;
use muf_frame::{Frame, PrimFault};
use muf_model::{MufFault, Prim};
use prim_common::{Made, give, ready};

// What a primitive says of its arguments, as they stand.
#[tactic(auto, using(crate::proofs::Missing::no_rule))]
fn argued(prim: Prim, guard: &Guard, frame: &Frame) -> Option<MufFault>
    ensures { (descr : Option ℕ) → result ≡ argued_of (talk_row descr prim) guard.now.actor (take (items_taken prim (flat frame.now).stack) (flat frame.now).stack) (world_of guard.now) }
{
    match prim {
        Prim::ConDbref | Prim::ConBoot => rows::outside(guard, frame),
        _ => None,
    }
}

// What a primitive makes of the items that it takes.
#[tactic(auto, using(crate::proofs::Missing::no_row))]
fn made(prim: Prim, descr: Option<u32>, guard: &mut Guard, frame: &Frame) -> Result<Made, PrimFault>
    ensures { Makes (does_of (talk_row descr prim) guard.old.actor (take (items_taken prim (flat frame.now).stack) (flat frame.now).stack) (world_of guard.old)) guard.old guard.new result }
{
    match prim {
        Prim::Notify => rows::notify(guard, frame),
        Prim::NotifyExclude => rows::notify_but(guard, frame),
        Prim::IsAwake => rows::awake(guard, frame),
        Prim::Online => rows::online(guard),
        Prim::ConCount => rows::connected(guard),
        Prim::ConDbref => rows::connected_at(guard, frame),
        Prim::Descriptors => rows::descriptors(guard, frame),
        Prim::Descr => Ok(rows::own_connection(descr)),
        Prim::ConBoot => rows::boot(guard, frame),
        _ => Err(PrimFault::Fault(MufFault::NotCompiled)),
    }
}

/// Uses a primitive of talk, as the actor to whom the guard lends the world, in a process of that connection: the frame and
/// the world are as its row says, or it is refused by the fault of the row and both are unchanged. Either way what changed is open to
/// that actor (`licensed`). Those that may be used so far are those with a row; of the others `NotCompiled` comes. After `NoMemory`
/// nothing is said of the frame and of the world.
pub fn apply(
    prim: Prim,
    guard: &mut Guard,
    frame: &mut Frame,
    descr: Option<u32>,
) -> Result<(), PrimFault>
    requires { family_of prim ≡ Talk }
    ensures row { Applied (shared prim guard.old.actor descr (locked_by (flat frame.old).marks) (flat frame.old).stack (world_of guard.old)) frame.old frame.new guard.old guard.new result }
    ensures licensed { OnAnswer result (Licensed guard.old.actor nobody (world_of guard.old) (world_of guard.new)) }
    ensures there { is_usable prim ≡ is_some (talk_row descr prim) }
{
    let argued = argued(prim, guard, frame);
    let taken = ready(prim, argued, guard, frame)?;
    let made = made(prim, descr, guard, frame)?;
    give(frame, taken, made)?;
    Ok(())
}
