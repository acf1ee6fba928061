// What the rows take, the path that a text writes, and leave.
ghost use Rattle.std.specs.Prelude.{◌≡◌, ◌≤◌, drop};
ghost use Rattle.std.specs.Option.{option_map};
ghost use Rattle.spec_rights.specs.Verdict.{verdict};
ghost use Rattle.spec_rights.specs.declared.act.Act.TheVariants.{Read};
ghost use Rattle.muf_frame.specs.inner.Shown.{Shown, flat};
ghost use Rattle.muck_perm.specs.inner.Guards.{objects_of};
ghost use Rattle.spec_prims.specs.Asking.{fault_of_denial};
ghost use Rattle.prim_prop.specs.inner.Asked.{IsPathed, MayPass, named_in};

use muck_model::Dbref;
use muck_perm::{Guard, verdict};
use muck_prop::{Path, PropFault, read_path};
use muf_frame::{Frame, PrimFault};
use muf_model::{MufFault, Text};
use spec_rights::Act;
use std::alloc::Global;

/// The object and the text upon it, so many items below the top.
#[tactic(auto, using(crate::proofs::Taken::named_steps))]
pub(crate) fn named(frame: &Frame, depth: usize) -> Option<(Dbref, &Text)>
    requires { depth ≤ 2 }
    ensures { option_map (λ p. (p.0.0, p.1.now)) result ≡ named_in (drop depth (flat frame.now).stack) }
{
    let text = frame.text_at(depth)?;
    let object = frame.object_at(depth + 1)?;
    Some((object, text))
}

/// The path that a text writes.
pub(crate) fn path_of(alloc: Global, text: &Text) -> Result<Path, PrimFault>
    ensures { IsPathed text.now result }
{
    match read_path(alloc, text.as_line()) {
        Ok(path) => Ok(path),
        Err(PropFault::NoMemory) => Err(PrimFault::NoMemory),
        Err(_) => Err(PrimFault::Fault(MufFault::BadArgument)),
    }
}

/// Leave to read a property.
pub(crate) fn permit_reading(guard: &Guard, object: Dbref, path: &Path) -> Result<(), PrimFault>
    ensures { MayPass (fault_of_denial (verdict (objects_of guard.now) guard.now.actor (Read object path.now))) result }
{
    let path = path.copy(guard.alloc())?;
    match verdict(guard.db(), &guard.actor(), &Act::Read { object, path }) {
        Ok(_) => Ok(()),
        Err(denial) => Err(PrimFault::Fault(MufFault::Denied(denial.rule))),
    }
}
