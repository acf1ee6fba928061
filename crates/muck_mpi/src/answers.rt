// What formulas are told.
ghost use Rattle.mpi.specs.Hosting.{Means};
ghost use Rattle.muck_perm.specs.inner.Guards.{objects_of};
ghost use Rattle.spec_mpi.specs.Telling.{told_by};

use crate::objects::{contents, controls, exits, flags, holds, kind, name, owner, place};
use crate::properties::{prop, prop_dir, prop_here};
use mpi::{Ask, MpiFault};
use muck_model::Line;
use muck_perm::Guard;

/// The answer to a question.
pub(crate) fn answer(guard: &Guard, ask: &Ask) -> Result<Line, MpiFault>
    ensures { Means (told_by (objects_of guard.now) guard.now.actor ask.now) result }
{
    let alloc = guard.alloc();
    let db = guard.db();
    match ask {
        Ask::Name(d) => name(alloc, db, *d),
        Ask::Loc(d) => place(alloc, db, *d),
        Ask::Owner(d) => owner(alloc, db, *d),
        Ask::Kind(d) => kind(alloc, db, *d),
        Ask::Flags(d) => flags(alloc, db, *d),
        Ask::Contents(d) => contents(alloc, db, *d),
        Ask::Exits(d) => exits(alloc, db, *d),
        Ask::Holds(d, place) => holds(alloc, db, *d, *place),
        Ask::Controls(d) => controls(guard, *d),
        Ask::Prop(path, d) => prop(guard, *d, path),
        Ask::PropHere(path, d) => prop_here(guard, *d, path),
        Ask::PropDir(path, d) => prop_dir(guard, *d, path),
    }
}
