// What a name stands for near a player: each object there is looked at once for its whole name, and only where no name equals
// the text once more for parts of names and exits.
ghost use Rattle.std.specs.Prelude.{◌≡◌, [], ◌∷◌, false};
ghost use Rattle.std.specs.Option.{option_or, option_map};
ghost use Rattle.std.specs.List.{filter, flat_map};
ghost use Rattle.muck_match.specs.declared.naming.Fit.TheVariants.{Whole};
ghost use Rattle.muck_match.specs.Scenery.{sees, is_thing};
ghost use Rattle.muck_match.specs.Exits.{first_item, hits_on};
ghost use Rattle.muck_match.specs.Naming.{candidate_chosen, joined, one_of, found_or_else, answers_to, name_matched};
ghost use Rattle.muck_match.specs.inner.Glances.{Sees};

use crate::Scene;
use crate::exits::{ExitHit, hit_besides, hit_on};
use crate::naming::{Fit, Found, answers, is_nobody, joined};
use crate::sights::{is_nothing, is_thing, place_in};
use muck_model::Dbref;

/// What a look at some objects found: those of whose name a word begins with the text, and the first exit on things among
/// them that it names.
#[derive(Clone, Copy, Drop)]
pub struct Glance {
    pub part: Found,
    pub hit: Option<ExitHit>,
}

// With one object more that may answer to the text.
#[tactic(auto, using(crate::proofs::Looks::one_fits, crate::proofs::Looks::one_fails))]
fn one_more<S: Scene>(scene: &S, fit: Fit, text: &[u8], found: Found, d: Dbref) -> Found
    ensures { result ≡ joined found (candidate_chosen (filter (answers_to fit text.now (S.shown scene.now)) (d ∷ []))) }
{
    if matches!(found, Found::Many) {
        return Found::Many;
    }
    if answers(scene, fit, text, d) {
        joined(found, Found::One(d))
    } else {
        found
    }
}

// Those in an object whose name equals the text. It ends where there is a second.
fn equal_in<S: Scene>(scene: &S, text: &[u8], owner: Dbref) -> Found
    ensures { result ≡ candidate_chosen (filter (answers_to Whole text.now (S.shown scene.now)) ((S.shown scene.now).contents owner)) }
{
    let mut found = Found::None;
    let mut at = scene.first_content(owner);
    while !is_nothing(at) {
        found = one_more(scene, Fit::Whole, text, found, at);
        if matches!(found, Found::Many) {
            return found;
        }
        at = scene.next(at);
    }
    found
}

// With the exits on one object more, where it is a thing.
#[tactic(auto, using(crate::proofs::Looks::thing_hits, crate::proofs::Looks::no_thing))]
fn hit_more<S: Scene>(scene: &S, text: &[u8], hit: Option<ExitHit>, d: Dbref) -> Option<ExitHit>
    ensures { result ≡ option_or hit (first_item (flat_map (hits_on (S.shown scene.now) false text.now) (filter (sees (λ s. is_thing s.kind) (S.shown scene.now)) (d ∷ [])))) }
{
    match hit {
        Some(hit) => Some(hit),
        None => {
            if is_thing(scene, d) {
                hit_on(scene, false, text, d)
            } else {
                None
            }
        }
    }
}

// What the contents of an object show.
fn look_into<S: Scene>(scene: &S, text: &[u8], owner: Dbref) -> Glance
    ensures { Sees (S.shown scene.now) text.now owner result [] }
{
    let mut seen = Glance {
        part: Found::None,
        hit: None,
    };
    let mut at = scene.first_content(owner);
    while !is_nothing(at) {
        let part = one_more(scene, Fit::Part, text, seen.part, at);
        let hit = hit_more(scene, text, seen.hit, at);
        seen = Glance { part, hit };
        at = scene.next(at);
    }
    seen
}

// An exit, or else parts of names.
fn exit_or_part(hit: Option<ExitHit>, part: Found) -> Found
    ensures { result ≡ found_or_else (one_of (option_map (λ h. h.exit) hit)) part }
{
    match hit {
        Some(hit) => Found::One(hit.exit),
        None => part,
    }
}

/// What the text names by a name: equal names of objects come first, then exits, then parts of names of objects.
pub fn named<S: Scene>(scene: &S, text: &[u8], player: Dbref) -> Found
    ensures { result ≡ name_matched (S.shown scene.now) player text.now }
{
    let carried = equal_in(scene, text, player);
    if matches!(carried, Found::Many) {
        return Found::Many;
    }
    let place = place_in(scene, player);
    let whole = joined(carried, equal_in(scene, text, place));
    if !is_nobody(whole) {
        return whole;
    }
    let own = look_into(scene, text, player);
    let beside = look_into(scene, text, place);
    let hit = hit_besides(scene, text, player, own.hit, beside.hit);
    exit_or_part(hit, joined(own.part, beside.part))
}
