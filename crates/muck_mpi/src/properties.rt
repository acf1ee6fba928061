// What is told of properties.
ghost use Rattle.std.specs.Prelude.{◌≡◌, IfOk, MatchOption, [], ◌∷◌, false};
ghost use Rattle.std.specs.Option.{option_copied, option_map_or, option_map};
ghost use Rattle.mpi.specs.Hosting.{Means};
ghost use Rattle.mpi.specs.Thoughts.{found_or_bad};
ghost use Rattle.muck_prop.specs.Store.{is_dir};
ghost use Rattle.spec_live.specs.Seen.{places_of};
ghost use Rattle.spec_live.specs.Worth.{value_text};
ghost use Rattle.muck_perm.specs.inner.Guards.{objects_of};
ghost use Rattle.spec_mpi.specs.Telling.{fault_told, path_written_in, at_written_path, of_object, value_of, property_text_at, first_text, below_at};

use crate::texts::truth;
use mpi::MpiFault;
use muck_db::{Db, value_text};
use muck_match::Scene;
use muck_model::{Dbref, Line, NoMemory};
use muck_perm::{Guard, verdict};
use muck_prop::{Path, PropFault, PropValue, read_path};
use spec_live::Object;
use spec_rights::Act;
use std::alloc::Global;

/// The path that a text writes; `BadValue` exactly where it writes none.
#[tactic(auto, using(crate::proofs::Paths::path_steps))]
pub(crate) fn path_of(alloc: Global, text: &Line) -> Result<Path, MpiFault>
    ensures { Means (found_or_bad (path_written_in text.now)) result }
{
    match read_path(alloc, text) {
        Ok(path) => Ok(path),
        Err(PropFault::NoMemory) => Err(MpiFault::NoMemory),
        Err(_) => Err(MpiFault::BadValue),
    }
}

// The value that an object has at a path, if it is there.
fn value_of<'a>(object: Option<&'a Object>, path: &Path) -> Option<&'a PropValue>
    ensures { option_copied result ≡ value_of (option_copied object.entry) path.now }
{
    match object {
        Some(object) => object.props().get(path),
        None => None,
    }
}

// Its text.
fn text_of(alloc: Global, value: Option<&PropValue>) -> Result<Option<Line>, NoMemory>
    ensures { IfOk result (λ text. text ≡ option_map value_text (option_copied value.entry)) }
{
    match value {
        Some(value) => Ok(Some(value_text(alloc, value)?)),
        None => Ok(None),
    }
}

// The text of a property, where there is one, by leave.
#[tactic(auto, unfolding(spec_mpi::specs::Telling::property_text_at))]
fn text_at(guard: &Guard, d: Dbref, path: &Path) -> Result<Option<Line>, MpiFault>
    ensures { Means (property_text_at (objects_of guard.now) guard.now.actor path.now d) result }
{
    let act = Act::Read {
        object: d,
        path: path.copy(guard.alloc())?,
    };
    match verdict(guard.db(), &guard.actor(), &act) {
        Ok(_) => Ok(text_of(guard.alloc(), value_of(guard.db().get(d), path))?),
        Err(denial) => Err(MpiFault::Denied(denial.rule)),
    }
}

// Whether properties stand below a path, by leave.
#[tactic(auto, unfolding(spec_mpi::specs::Telling::below_at))]
fn below_at(guard: &Guard, d: Dbref, path: &Path) -> Result<Line, MpiFault>
    ensures { Means (below_at (objects_of guard.now) guard.now.actor d path.now) result }
{
    let act = Act::Read {
        object: d,
        path: path.copy(guard.alloc())?,
    };
    match verdict(guard.db(), &guard.actor(), &act) {
        Ok(_) => Ok(truth(guard.alloc(), has_below(guard.db().get(d), path))?),
        Err(denial) => Err(MpiFault::Denied(denial.rule)),
    }
}

fn has_below(object: Option<&Object>, path: &Path) -> bool
    ensures { result ≡ option_map_or (λ o. is_dir path.now o.props) (option_copied object.entry) false }
{
    match object {
        Some(object) => object.props().is_dir(path),
        None => false,
    }
}

// The next of the places upward.
#[tactic(auto, unfolding(spec_live::specs::Seen::scenery_of, muck_match::specs::Scenery::upward, muck_match::specs::Scenery::is_in_scenery))]
fn place_above(db: &Db, object: Dbref) -> Option<Dbref>
    ensures { MatchOption result (places_of db.now object ≡ []) (λ up. places_of db.now object ≡ up ∷ places_of db.now up) }
{
    let place = db.place(object)?;
    if db.kind(place).is_some() {
        return Some(place);
    }
    None
}

// The first of an object and its places upward that has a property, each looked at by leave.
#[tactic(auto, unfolding(spec_mpi::specs::Telling::first_text))]
fn text_upward(guard: &Guard, object: Dbref, path: &Path) -> Result<Line, MpiFault>
    ensures { Means (first_text (objects_of guard.now) guard.now.actor path.now (object ∷ places_of (objects_of guard.now) object)) result }
{
    let mut next = Some(object);
    while let Some(at) = next {
        if let Some(text) = text_at(guard, at, path)? {
            return Ok(text);
        }
        next = place_above(guard.db(), at);
    }
    Ok(Line::of_text(guard.alloc(), b"")?)
}

#[tactic(auto, unfolding(spec_mpi::specs::Telling::first_text))]
fn text_here(guard: &Guard, object: Dbref, path: &Path) -> Result<Line, MpiFault>
    ensures { Means (first_text (objects_of guard.now) guard.now.actor path.now (object ∷ [])) result }
{
    match text_at(guard, object, path)? {
        Some(text) => Ok(text),
        None => Ok(Line::of_text(guard.alloc(), b"")?),
    }
}

/// The property of a path, from an object on upward.
pub(crate) fn prop(guard: &Guard, d: Dbref, path: &Line) -> Result<Line, MpiFault>
    ensures { Means (of_object (λ o. at_written_path fault_told (λ p. first_text (objects_of guard.now) guard.now.actor p (d ∷ places_of (objects_of guard.now) d)) path.now) d (objects_of guard.now)) result }
{
    match guard.db().get(d) {
        Some(_) => {
            let path = path_of(guard.alloc(), path)?;
            text_upward(guard, d, &path)
        }
        None => Err(MpiFault::BadValue),
    }
}

/// The property of an object alone.
pub(crate) fn prop_here(guard: &Guard, d: Dbref, path: &Line) -> Result<Line, MpiFault>
    ensures { Means (of_object (λ o. at_written_path fault_told (λ p. first_text (objects_of guard.now) guard.now.actor p (d ∷ [])) path.now) d (objects_of guard.now)) result }
{
    match guard.db().get(d) {
        Some(_) => {
            let path = path_of(guard.alloc(), path)?;
            text_here(guard, d, &path)
        }
        None => Err(MpiFault::BadValue),
    }
}

/// Whether properties stand below the path.
pub(crate) fn prop_dir(guard: &Guard, d: Dbref, path: &Line) -> Result<Line, MpiFault>
    ensures { Means (of_object (λ o. at_written_path fault_told (below_at (objects_of guard.now) guard.now.actor d) path.now) d (objects_of guard.now)) result }
{
    match guard.db().get(d) {
        Some(_) => {
            let path = path_of(guard.alloc(), path)?;
            below_at(guard, d, &path)
        }
        None => Err(MpiFault::BadValue),
    }
}
