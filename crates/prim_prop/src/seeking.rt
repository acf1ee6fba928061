// ENVPROP and ENVPROPSTR: the first of an object and its places upward that has a value.
ghost use Rattle.std.specs.Prelude.{◌≡◌, [], ◌∷◌, IfOk, MatchOption, take};
ghost use Rattle.spec_live.specs.Seen.{places_of};
ghost use Rattle.muf_frame.specs.inner.Shown.{Shown, flat};
ghost use Rattle.muck_perm.specs.inner.Guards.{objects_of, world_of};
ghost use Rattle.spec_prims.specs.PropRows.{first_holder, property_sought};
ghost use Rattle.prim_common.specs.inner.Applied.{Makes, items_of};
ghost use Rattle.muf_model.specs.Datum.{object};
ghost use Rattle.muf_model.specs.inner.View.{view};
ghost use Rattle.prim_prop.specs.inner.Looks.{form_of};

use crate::asked::{named, path_of, permit_reading};
use crate::looking::{Form, shown, value_of};
use muck_db::Db;
use muck_match::Scene;
use muck_model::{Dbref, NoMemory};
use muck_perm::Guard;
use muck_prop::Path;
use muf_frame::{Frame, PrimFault};
use muf_model::{MufFault, Value};
use prim_common::Made;
use std::alloc::Global;

const NOTHING: Dbref = Dbref(-1);

// The next of the places upward.
#[tactic(auto, unfolding(spec_live::specs::Seen::scenery_of, muck_match::specs::Scenery::upward, muck_match::specs::Scenery::is_in_scenery))]
fn place_above(db: &Db, object: Dbref) -> Option<Dbref>
    ensures { MatchOption result (places_of db.now object ≡ []) (λ up. places_of db.now object ≡ up ∷ places_of db.now up) }
{
    let place = db.place(object)?;
    if db.kind(place).is_some() {
        return Some(place);
    }
    None
}

// An item upon an object.
fn held_by(alloc: Global, holder: Dbref, item: Value) -> Result<Made, NoMemory>
    ensures { IfOk result (λ made. items_of made ≡ view item ∷ object holder.0 ∷ []) }
{
    let mut items = Vec::with_capacity(alloc, 2)?;
    items.push(item)?;
    items.push(Value::Ref(holder))?;
    Ok(Made::Many(items))
}

// The first of an object and its places upward that has a value at a path, each looked at by leave.
fn seek_from(form: Form, guard: &Guard, object: Dbref, path: &Path) -> Result<Made, PrimFault>
    ensures { Makes (first_holder (form_of form) guard.now.actor path.now (object ∷ places_of (objects_of guard.now) object) (world_of guard.now)) guard.now guard.now result }
{
    let mut next = Some(object);
    while let Some(at) = next {
        permit_reading(guard, at, path)?;
        if let Some(value) = value_of(guard.db().get(at), path) {
            let item = shown(guard.alloc(), form, Some(value))?;
            return Ok(held_by(guard.alloc(), at, item)?);
        }
        next = place_above(guard.db(), at);
    }
    let item = shown(guard.alloc(), form, None)?;
    Ok(held_by(guard.alloc(), NOTHING, item)?)
}

/// ENVPROP and ENVPROPSTR.
pub(crate) fn seek(form: Form, guard: &Guard, frame: &Frame) -> Result<Made, PrimFault>
    ensures { Makes (property_sought (form_of form) guard.now.actor (take 2 (flat frame.now).stack) (world_of guard.now)) guard.now guard.now result }
{
    let Some((object, text)) = named(frame, 0) else {
        return Err(PrimFault::Fault(MufFault::BadType));
    };
    let path = path_of(guard.alloc(), text)?;
    seek_from(form, guard, object, &path)
}
