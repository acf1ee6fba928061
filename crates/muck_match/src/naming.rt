// What a text names.
ghost use Rattle.std.specs.Prelude.{◌≡◌, ◌<◌, ◌^◌, pos};
ghost use Rattle.std.specs.Option.{option_copied};
ghost use Rattle.muck_model.specs.Numbers.{dbref_numbered};
ghost use Rattle.muck_match.specs.inner.Listed.{AreListed};
ghost use Rattle.muck_match.specs.Naming.{joined, one_of, is_nobody, answers_to, name_fits, is_player_named, player_named, if_there, starred, found_by_sign, thing_found};

use crate::glances::named;
use crate::sights::{is_player, is_there, place_in};
use crate::words::{has_word, is_same};
use crate::{HOME, Scene};
use muck_model::{Dbref, Line};

/// How a name answers to a text: as a whole, or in part.
#[derive(Clone, Copy, Debug, PartialEq, Eq, Drop)]
pub enum Fit {
    Whole,
    Part,
}

/// What a text names.
#[derive(Clone, Copy, Debug, PartialEq, Eq, Drop)]
pub enum Found {
    /// This object, or `#-3` for home.
    One(Dbref),
    /// Nothing.
    None,
    /// Several objects, none before the others.
    Many,
}

// Whether a name answers to the text.
#[tactic(auto, unfolding(crate::specs::Naming::name_fits))]
fn fits(fit: Fit, text: &[u8], name: &[u8]) -> bool
    ensures { result ≡ name_fits fit text.now name.now }
{
    match fit {
        Fit::Whole => is_same(text, name),
        Fit::Part => has_word(text, name),
    }
}

// Whether the object answers to the text.
#[tactic(auto, unfolding(crate::specs::Naming::answers_to))]
pub fn answers<S: Scene>(scene: &S, fit: Fit, text: &[u8], d: Dbref) -> bool
    ensures { result ≡ answers_to fit text.now (S.shown scene.now) d }
{
    match scene.name(d) {
        Some(name) => fits(fit, text, name.as_slice()),
        None => false,
    }
}

// The object, or none.
fn one_of(d: Option<Dbref>) -> Found
    ensures { result ≡ one_of d }
{
    match d {
        Some(d) => Found::One(d),
        None => Found::None,
    }
}

// What two lists of candidates make together.
pub fn joined(before: Found, behind: Found) -> Found
    ensures { result ≡ joined before behind }
{
    match (before, behind) {
        (Found::None, found) => found,
        (found, Found::None) => found,
        _ => Found::Many,
    }
}

// Whether nothing was found.
pub fn is_nobody(found: Found) -> bool
    ensures { result ≡ is_nobody found }
{
    matches!(found, Found::None)
}

// Whether it is a player of that name.
fn is_player_named<S: Scene>(scene: &S, name: &[u8], d: Dbref) -> bool
    ensures { result ≡ is_player_named name.now (S.shown scene.now) d }
{
    match scene.name(d) {
        Some(called) => is_player(scene, d) && is_same(name, called.as_slice()),
        None => false,
    }
}

// The number as that of an object.
fn numbered(n: u32) -> Dbref
    requires { n < 2 ^ 31 }
    ensures { result ≡ dbref_numbered (pos n) }
{
    Dbref(n as i32)
}

/// The player of that name, given by its bytes, as `player` finds it.
pub fn player_named<S: Scene>(scene: &S, name: &[u8]) -> Option<Dbref>
    ensures { result ≡ player_named (S.shown scene.now) name.now }
{
    let count = scene.objects();
    for n in 0..count {
        let d = numbered(n);
        if is_player_named(scene, name, d) {
            return Some(d);
        }
    }
    None
}

/// The player of that name, as `player_named` finds it, where each player is among these numbers. It looks at no others, and takes no memory.
pub fn player_among<S: Scene>(scene: &S, numbers: &[u32], name: &[u8]) -> Option<Dbref>
    requires { AreListed (S.shown scene.now) numbers.now }
    ensures { result ≡ player_named (S.shown scene.now) name.now }
{
    let count = scene.objects();
    let mut least = count;
    for n in numbers {
        if *n < least && is_player_named(scene, name, numbered(*n)) {
            least = *n;
        }
    }
    if least < count {
        Some(numbered(least))
    } else {
        None
    }
}

/// The player of that name, compared without regard to case; of several, the one with the lowest number. A scene shows
/// no list of its players, so this goes over all numbers of objects; `player_among` doesn't. It takes no memory.
pub fn player<S: Scene>(scene: &S, name: &Line) -> Option<Dbref>
    ensures { result ≡ player_named (S.shown scene.now) name.now }
{
    player_named(scene, name.as_slice())
}

// The object, where it is there.
#[tactic(auto, unfolding(crate::specs::Naming::if_there))]
fn if_there<S: Scene>(scene: &S, d: Dbref) -> Found
    ensures { result ≡ if_there (S.shown scene.now) d }
{
    if is_there(scene, d) {
        return Found::One(d);
    }
    Found::None
}

// What `#N`, `*player` or a name stands for.
#[tactic(auto, unfolding(crate::specs::Naming::found_by_sign))]
fn found_by_sign<S: Scene>(scene: &S, player: Dbref, text: &[u8]) -> Found
    ensures { result ≡ found_by_sign (S.shown scene.now) player text.now }
{
    if let Some(d) = Dbref::read(text) {
        return if_there(scene, d);
    }
    match text {
        [b'*', name @ ..] => one_of(player_named(scene, name)),
        _ => named(scene, text, player),
    }
}

/// What the text names for the player: `me`, `here` and `home`, then `#N` and `*player`, and else a name. Names are
/// compared without regard to case. Candidates are what the player carries, the contents of its place, and the exits in
/// exit order. Equal names of objects come first, where several are `Many`; then an exit with an equal alias, of which
/// the first in exit order stands; then objects other than exits of which some word of the name begins with the text.
/// Only home is found without being there. It takes no memory.
#[tactic(auto, unfolding(crate::specs::Naming::thing_found))]
pub fn find<S: Scene>(scene: &S, player: Dbref, text: &Line) -> Found
    ensures { result ≡ thing_found (S.shown scene.now) player text.now }
{
    let bytes = text.as_slice();
    if is_same(bytes, b"me") {
        return if_there(scene, player);
    }
    if is_same(bytes, b"here") {
        return if_there(scene, place_in(scene, player));
    }
    if is_same(bytes, b"home") {
        return Found::One(HOME);
    }
    found_by_sign(scene, player, bytes)
}

// What stands behind a `*`.
fn behind_star(text: &[u8]) -> Option<&[u8]>
    ensures { option_copied result ≡ starred text.now }
{
    let (first, name) = text.split_first()?;
    if *first == b'*' { Some(name) } else { None }
}

/// What the text names for the player, as `find` finds it, where each player is among these numbers: for `*player` it looks at them alone.
pub fn find_among<S: Scene>(scene: &S, numbers: &[u32], player: Dbref, text: &Line) -> Found
    requires { AreListed (S.shown scene.now) numbers.now }
    ensures { result ≡ thing_found (S.shown scene.now) player text.now }
{
    match behind_star(text.as_slice()) {
        Some(name) => one_of(player_among(scene, numbers, name)),
        None => find(scene, player, text),
    }
}
