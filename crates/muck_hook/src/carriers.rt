// The objects that a cause meets: a place or a player and its places upward, or a place and what is in it.
ghost use Rattle.std.specs.Prelude.{◌≡◌, ◌++◌, ◌∷◌, [], false, not, codes, MatchOption, IfOk, OnOk};
ghost use Rattle.std.specs.List.{filter, flat_map};
ghost use Rattle.spec_live.specs.Seen.{listed_in, places_of};
ghost use Rattle.spec_rights.specs.Levels.{is_player_at};
ghost use Rattle.spec_hooks.specs.Firing.{directory, fired_by};
ghost use Rattle.muck_hook.specs.Firing.{fired_unplayed};

use crate::firing::push_fires;
use muck_db::Db;
use muck_match::Scene;
use muck_model::{Dbref, NoMemory};
use muck_perm::is_player_at;
use muck_prop::Path;
use spec_hooks::{Cause, Fire};
use std::alloc::Global;

// The next of the places upward.
#[tactic(auto, unfolding(spec_live::specs::Seen::scenery_of, muck_match::specs::Scenery::upward, muck_match::specs::Scenery::is_in_scenery))]
fn place_above(db: &Db, object: Dbref) -> Option<Dbref>
    ensures { MatchOption result (places_of db.now object ≡ []) (λ up. places_of db.now object ≡ up ∷ places_of db.now up) }
{
    let place = db.place(object)?;
    if db.kind(place).is_some() {
        return Some(place);
    }
    None
}

// By an object and the places upward from it.
#[tactic(auto, using(crate::proofs::Listed::upward_more))]
pub fn upward(
    alloc: Global,
    db: &Db,
    cause: &Cause,
    dir: &Path,
    object: Dbref,
    fires: &mut Vec<Fire>,
) -> Result<(), NoMemory>
    requires { dir.now ≡ directory cause.now }
    ensures { OnOk result (fires.new.items ≡ fires.old.items ++ flat_map (fired_by db.now cause.now) (object ∷ places_of db.now object)) }
{
    let mut next = Some(object);
    while let Some(at) = next {
        push_fires(alloc, db, cause, dir, at, fires)?;
        next = place_above(db, at);
    }
    Ok(())
}

// By one object, unless it is a player.
fn push_other(
    alloc: Global,
    db: &Db,
    cause: &Cause,
    dir: &Path,
    object: Dbref,
    fires: &mut Vec<Fire>,
) -> Result<(), NoMemory>
    requires { dir.now ≡ directory cause.now }
    ensures { OnOk result (fires.new.items ≡ fires.old.items ++ fired_unplayed db.now cause.now object) }
{
    if is_player_at(db, object) {
        return Ok(());
    }
    push_fires(alloc, db, cause, dir, object, fires)
}

fn push_others(
    alloc: Global,
    db: &Db,
    cause: &Cause,
    dir: &Path,
    things: &[Dbref],
    fires: &mut Vec<Fire>,
) -> Result<(), NoMemory>
    requires { dir.now ≡ directory cause.now }
    ensures { OnOk result (fires.new.items ≡ fires.old.items ++ flat_map (fired_unplayed db.now cause.now) things.now) }
{
    for object in things {
        push_other(alloc, db, cause, dir, *object, fires)?;
    }
    Ok(())
}

// What is in a place.
fn things_in(alloc: Global, db: &Db, place: Dbref) -> Result<Vec<Dbref>, NoMemory>
    ensures { IfOk result (λ things. things.items ≡ listed_in false place db.now) }
{
    let things = db.contents(place).collect(alloc)?;
    Ok(things)
}

// By a place and by what is in it but players. Where nothing in it listens it looks at the place alone.
pub fn around(
    alloc: Global,
    db: &Db,
    cause: &Cause,
    dir: &Path,
    place: Dbref,
    fires: &mut Vec<Fire>,
) -> Result<(), NoMemory>
    requires dir { dir.now ≡ directory cause.now }
    requires listen { directory cause.now ≡ codes "_listen" ∷ [] }
    ensures { OnOk result (fires.new.items ≡ fires.old.items ++ flat_map (fired_by db.now cause.now) (place ∷ filter (λ d. not (is_player_at db.now d)) (listed_in false place db.now))) }
{
    push_fires(alloc, db, cause, dir, place, fires)?;
    if !db.is_heard_in(place) {
        return Ok(());
    }
    let things = things_in(alloc, db, place)?;
    push_others(alloc, db, cause, dir, &things, fires)
}
