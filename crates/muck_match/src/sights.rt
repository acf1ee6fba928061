// Questions about one object of a scene.
ghost use Rattle.std.specs.Prelude.{◌≡◌, []};
ghost use Rattle.std.specs.Prelude.{◌∷◌, MatchOption};
ghost use Rattle.muck_match.specs.Scenery.{is_nothing, is_in_scenery, is_thing, is_player, is_program, sees, place_in_scenery};

use crate::{NOTHING, Scene};
use muck_model::{Dbref, Kind};

/// Whether the number stands for no object.
pub fn is_nothing(d: Dbref) -> bool
    ensures { result ≡ is_nothing d }
{
    d.0 == NOTHING.0
}

/// Whether it is there.
#[tactic(auto, unfolding(crate::specs::Scenery::is_in_scenery))]
pub fn is_there<S: Scene>(scene: &S, d: Dbref) -> bool
    ensures { result ≡ is_in_scenery (S.shown scene.now) d }
{
    scene.kind(d).is_some()
}

/// Whether it is a thing.
pub fn is_thing<S: Scene>(scene: &S, d: Dbref) -> bool
    ensures { result ≡ sees (λ s. is_thing s.kind) (S.shown scene.now) d }
{
    matches!(scene.kind(d), Some(Kind::Thing))
}

/// Whether it is a player.
pub fn is_player<S: Scene>(scene: &S, d: Dbref) -> bool
    ensures { result ≡ sees (λ s. is_player s.kind) (S.shown scene.now) d }
{
    matches!(scene.kind(d), Some(Kind::Player))
}

/// Whether it is a program.
pub fn is_program<S: Scene>(scene: &S, d: Dbref) -> bool
    ensures { result ≡ sees (λ s. is_program s.kind) (S.shown scene.now) d }
{
    matches!(scene.kind(d), Some(Kind::Program))
}

/// Its place, `#-1` where it isn't there.
#[tactic(auto, unfolding(crate::specs::Scenery::place_in_scenery))]
pub fn place_in<S: Scene>(scene: &S, d: Dbref) -> Dbref
    ensures { result ≡ place_in_scenery (S.shown scene.now) d }
{
    scene.place(d).unwrap_or(NOTHING)
}

/// The next of its places upward.
#[tactic(auto, unfolding(crate::specs::Scenery::upward))]
pub fn place_above<S: Scene>(scene: &S, d: Dbref) -> Option<Dbref>
    ensures { MatchOption result ((S.shown scene.now).places d ≡ []) (λ up. (S.shown scene.now).places d ≡ up ∷ (S.shown scene.now).places up) }
{
    let place = scene.place(d)?;
    if is_there(scene, place) {
        return Some(place);
    }
    None
}
