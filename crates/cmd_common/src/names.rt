// The names that objects and players may have.
ghost use Rattle.std.specs.Prelude.{◌≡◌, ◌≤◌, true, ◌==◌, length};
ghost use Rattle.std.specs.List.{list_any};
ghost use Rattle.spec_live.specs.Objects.{is_player};
ghost use Rattle.spec_commands.specs.Finding.{is_object_so};
ghost use Rattle.spec_commands.specs.Building.{is_reserved, bad_start, is_name, is_player_name, may_be_called};
ghost use Rattle.muck_perm.specs.inner.Guards.{world_of};

use muck_db::Db;
use muck_model::{Dbref, Kind};
use muck_perm::Guard;

/// The longest name of an object, in bytes.
const NAME_MOST: usize = 80;

// Whether a text means something of its own where an object is named.
#[tactic(auto, unfolding(muck_match::specs::Words::is_same))]
fn is_reserved(name: &[u8]) -> bool
    ensures { result ≡ is_reserved name.now }
{
    name.eq_ignore_ascii_case(b"me")
        || name.eq_ignore_ascii_case(b"here")
        || name.eq_ignore_ascii_case(b"home")
}

// Whether a text is empty, or its first byte makes it mean something else.
fn has_bad_start(name: &[u8]) -> bool
    ensures { result ≡ bad_start name.now }
{
    match name.split_first() {
        Some((first, _)) => matches!(*first, b'#' | b'*' | b'!' | b' '),
        None => true,
    }
}

fn has_byte(byte: u8, text: &[u8]) -> bool
    ensures { result ≡ list_any (λ b. b == byte) text.now }
{
    text.iter().any(|b| *b == byte)
}

/// Whether an object may have this name.
#[tactic(auto, unfolding(spec_commands::specs::Building::is_name))]
pub fn is_name(name: &[u8]) -> bool
    ensures means { result ≡ is_name name.now }
    ensures some { result ≡ true → 1 ≤ length name.now }
    ensures short { result ≡ true → length name.now ≤ 80 }
{
    !(has_bad_start(name) || name.len() > NAME_MOST || has_byte(b'\r', name) || is_reserved(name))
}

/// Whether a player may have this name, which no player has.
#[tactic(auto, unfolding(spec_commands::specs::Building::is_player_name))]
pub fn is_player_name(db: &Db, name: &[u8]) -> bool
    ensures means { result ≡ is_player_name db.now name.now }
    ensures some { result ≡ true → 1 ≤ length name.now }
    ensures short { result ≡ true → length name.now ≤ 80 }
{
    is_name(name) && !has_byte(b' ', name) && db.player_named(name).is_none()
}

// Whether an object is there and is a player.
#[tactic(auto, unfolding(spec_commands::specs::Finding::is_object_so))]
fn is_player(guard: &Guard, x: Dbref) -> bool
    ensures { result ≡ is_object_so (λ o. is_player o.kind) x (world_of guard.now) }
{
    match guard.db().get(x) {
        Some(object) => matches!(object.kind(), Kind::Player),
        None => false,
    }
}

/// Whether an object may have this name; a player's is taken by no other.
pub fn may_be_called(guard: &Guard, x: Dbref, name: &[u8]) -> bool
    ensures means { result ≡ may_be_called x name.now (world_of guard.now) }
    ensures some { result ≡ true → 1 ≤ length name.now }
    ensures short { result ≡ true → length name.now ≤ 80 }
{
    if is_player(guard, x) {
        is_player_name(guard.db(), name)
    } else {
        is_name(name)
    }
}
