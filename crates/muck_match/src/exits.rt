// Which exit a line takes.
ghost use Rattle.std.specs.Prelude.{◌≡◌, ◌≤◌, ◌<◌, ◌^◌, ◌+◌, ◌==◌, length, false, slice_index};
ghost use Rattle.std.specs.Option.{option_map_or};
ghost use Rattle.std.specs.List.{flat_map};
ghost use Rattle.muck_match.specs.Scenery.{things_in, place_in_scenery};
ghost use Rattle.muck_match.specs.Exits.{first_item, alias_takes, rest_behind, hit_of, hits_in, leads_to_program, hits_at, hits_on, hits, exit_for};

use crate::Scene;
use crate::sights::{is_nothing, is_program, is_thing, place_above, place_in};
use crate::words::{begins_with, is_same};
use muck_model::{Dbref, Line, byte_at};

/// An exit that a line takes: the exit, where the alias begins and ends in its name, and where the argument begins in
/// the line.
#[derive(Clone, Copy, Debug, PartialEq, Eq, Drop)]
pub struct ExitHit {
    pub exit: Dbref,
    pub alias: (usize, usize),
    pub rest: usize,
}

// Whether a space stands there.
fn has_space_at(line: &[u8], at: usize) -> bool
    ensures { result ≡ (slice_index line.now at == 32) }
{
    at < line.len() && line[at] == b' '
}

// Whether the alias takes the line, which may have an argument or not.
#[tactic(auto, unfolding(crate::specs::Exits::alias_takes))]
fn takes(argument: bool, line: &[u8], alias: &[u8]) -> bool
    ensures { result ≡ alias_takes argument line.now alias.now }
{
    is_same(alias, line)
        || (argument && (begins_with(alias, line) && has_space_at(line, alias.len())))
}

// Where the argument begins behind the alias.
#[tactic(auto, unfolding(crate::specs::Exits::rest_behind))]
fn rest_behind(line: &[u8], alias: &[u8]) -> usize
    ensures { result ≡ rest_behind line.now alias.now }
{
    if is_same(alias, line) {
        return line.len();
    }
    alias.len() + 1
}

// The hit of an alias that begins there in the exit's name.
fn hit_of(exit: Dbref, line: &[u8], alias: &[u8], from: usize) -> ExitHit
    requires { from + length alias.now < 2 ^ 64 }
    ensures { result ≡ hit_of exit line.now (record { text = alias.now; from = from; to = from + length alias.now }) }
{
    let to = from + alias.len();
    ExitHit {
        exit,
        alias: (from, to),
        rest: rest_behind(line, alias),
    }
}

// The first alias of the name that takes the line.
fn hit_in(exit: Dbref, argument: bool, line: &[u8], name: &[u8]) -> Option<ExitHit>
    ensures { result ≡ first_item (hits_in exit argument line.now name.now) }
{
    let mut from = 0;
    let mut more = name;
    while let Some(end) = byte_at(more, b';') {
        let alias = more.split_at(end).0;
        if takes(argument, line, alias) {
            return Some(hit_of(exit, line, alias, from));
        }
        more = more.split_at(end + 1).1;
        from += end + 1;
    }
    if takes(argument, line, more) {
        return Some(hit_of(exit, line, more, from));
    }
    None
}

// Whether the exit leads to a program.
#[tactic(auto, unfolding(crate::specs::Exits::leads_to_program))]
fn runs<S: Scene>(scene: &S, exit: Dbref) -> bool
    ensures { result ≡ option_map_or (leads_to_program (S.shown scene.now)) ((S.shown scene.now).sight exit) false }
{
    match scene.link(exit) {
        Some(link) => is_program(scene, link),
        None => false,
    }
}

// The first alias of the exit that takes the line.
#[tactic(auto, unfolding(crate::specs::Exits::hits_at))]
fn hit_at<S: Scene>(scene: &S, typed: bool, line: &[u8], exit: Dbref) -> Option<ExitHit>
    ensures { result ≡ first_item (hits_at (S.shown scene.now) typed line.now exit) }
{
    let argument = typed && runs(scene, exit);
    let name = scene.name(exit)?;
    hit_in(exit, argument, line, name.as_slice())
}

// The first of the exits on an object that takes the line.
pub fn hit_on<S: Scene>(scene: &S, typed: bool, line: &[u8], owner: Dbref) -> Option<ExitHit>
    ensures { result ≡ first_item (hits_on (S.shown scene.now) typed line.now owner) }
{
    let mut at = scene.first_exit(owner);
    while !is_nothing(at) {
        if let Some(hit) = hit_at(scene, typed, line, at) {
            return Some(hit);
        }
        at = scene.next(at);
    }
    None
}

// The first of the exits on the things in an object that takes the line.
fn hit_on_things<S: Scene>(scene: &S, typed: bool, line: &[u8], owner: Dbref) -> Option<ExitHit>
    ensures { result ≡ first_item (flat_map (hits_on (S.shown scene.now) typed line.now) (things_in (S.shown scene.now) owner)) }
{
    let mut at = scene.first_content(owner);
    while !is_nothing(at) {
        if is_thing(scene, at) {
            if let Some(hit) = hit_on(scene, typed, line, at) {
                return Some(hit);
            }
        }
        at = scene.next(at);
    }
    None
}

// The first of the exits on the places upward that takes the line.
fn hit_above<S: Scene>(scene: &S, typed: bool, line: &[u8], place: Dbref) -> Option<ExitHit>
    ensures { result ≡ first_item (flat_map (hits_on (S.shown scene.now) typed line.now) ((S.shown scene.now).places place)) }
{
    let mut at = place;
    while let Some(up) = place_above(scene, at) {
        if let Some(hit) = hit_on(scene, typed, line, up) {
            return Some(hit);
        }
        at = up;
    }
    None
}

/// The first exit in exit order that takes the line, where only a typed line may have an argument for a program.
pub fn first_hit<S: Scene>(scene: &S, typed: bool, line: &[u8], player: Dbref) -> Option<ExitHit>
    ensures { result ≡ first_item (hits (S.shown scene.now) typed line.now player) }
{
    let place = place_in(scene, player);
    if let Some(hit) = hit_on(scene, typed, line, place) {
        return Some(hit);
    }
    if let Some(hit) = hit_on_things(scene, typed, line, player) {
        return Some(hit);
    }
    if let Some(hit) = hit_on_things(scene, typed, line, place) {
        return Some(hit);
    }
    if let Some(hit) = hit_on(scene, typed, line, player) {
        return Some(hit);
    }
    hit_above(scene, typed, line, place)
}

/// The first exit in exit order that the text names, where those on carried things and on things in the place are known.
pub fn hit_besides<S: Scene>(
    scene: &S,
    text: &[u8],
    player: Dbref,
    carried: Option<ExitHit>,
    beside: Option<ExitHit>,
) -> Option<ExitHit>
    requires carried { carried ≡ first_item (flat_map (hits_on (S.shown scene.now) false text.now) (things_in (S.shown scene.now) player)) }
    requires beside { beside ≡ first_item (flat_map (hits_on (S.shown scene.now) false text.now) (things_in (S.shown scene.now) (place_in_scenery (S.shown scene.now) player))) }
    ensures { result ≡ first_item (hits (S.shown scene.now) false text.now player) }
{
    let place = place_in(scene, player);
    let here = hit_on(scene, false, text, place);
    let things = carried.or(beside);
    if let Some(hit) = here.or(things) {
        return Some(hit);
    }
    if let Some(hit) = hit_on(scene, false, text, player) {
        return Some(hit);
    }
    hit_above(scene, false, text, place)
}

/// The exit that a typed line takes: the first in exit order of which an alias takes it, with its first such alias.
/// Exit order is the exits on the player's place, on carried things, on things in the place, on the player, and then on
/// the places upward. An alias takes a line that equals it without regard to case, and where the exit leads to a
/// program, also one that begins with it and a space; the rest is the argument. It takes no memory.
#[tactic(auto, unfolding(crate::specs::Exits::exit_for))]
pub fn exit_for<S: Scene>(scene: &S, player: Dbref, line: &Line) -> Option<ExitHit>
    ensures { result ≡ exit_for (S.shown scene.now) player line.now }
{
    first_hit(scene, true, line.as_slice(), player)
}
