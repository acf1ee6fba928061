// Levels, users and control.
ghost use Rattle.std.specs.Prelude.{◌≡◌, ◌<◌, ◌≤◌, ◌==◌, min, nat_lt, length};
ghost use Rattle.spec_rights.specs.Levels.{level_of, level_at, owner_at, flag_at, is_player_at, owns, controls_as, command_level, effective, inherits, level, own_user, user};

use muck_db::Db;
use muck_model::{Dbref, Kind};
use spec_live::{HAVEN, Object, QUELL, SETUID, WIZARD, has_flag};

/// The highest level, that of a wizard.
pub const MASTER: u8 = 4;

const NOTHING: Dbref = Dbref(-1);

// The level of an object that is there.
fn level_of(object: &Object) -> u8
    ensures { result ≡ level_of object.now }
{
    let flags = object.flags();
    if has_flag(WIZARD, flags) && !has_flag(QUELL, flags) {
        MASTER
    } else {
        object.level()
    }
}

/// The level of an object, 0 where it isn't there.
#[tactic(auto, unfolding(spec_rights::specs::Levels::level_at))]
pub fn level_at(db: &Db, d: Dbref) -> u8
    ensures { result ≡ level_at db.now d }
{
    match db.get(d) {
        Some(object) => level_of(object),
        None => 0,
    }
}

/// The owner of an object, `#-1` where it isn't there.
#[tactic(auto, unfolding(spec_rights::specs::Levels::owner_at))]
pub fn owner_at(db: &Db, d: Dbref) -> Dbref
    ensures { result ≡ owner_at db.now d }
{
    match db.get(d) {
        Some(object) => object.owner(),
        None => NOTHING,
    }
}

/// Whether an object is there and has the flag.
#[tactic(auto, unfolding(spec_rights::specs::Levels::flag_at))]
pub fn flag_at(flag: u16, db: &Db, d: Dbref) -> bool
    requires { 0 < flag }
    ensures { result ≡ flag_at flag db.now d }
{
    match db.get(d) {
        Some(object) => has_flag(flag, object.flags()),
        None => false,
    }
}

/// Whether it is a player.
#[tactic(auto, unfolding(spec_rights::specs::Levels::is_player_at))]
pub fn is_player_at(db: &Db, d: Dbref) -> bool
    ensures { result ≡ is_player_at db.now d }
{
    match db.get(d) {
        Some(object) => matches!(object.kind(), Kind::Player),
        None => false,
    }
}

// Whether the user owns the object; a player owns itself.
#[tactic(auto, unfolding(spec_rights::specs::Levels::owns))]
fn owns(db: &Db, user: Dbref, d: Dbref) -> bool
    ensures { result ≡ owns db.now user d }
{
    match db.get(d) {
        Some(object) => {
            object.owner() == user || (matches!(object.kind(), Kind::Player) && d == user)
        }
        None => false,
    }
}

/// Whether somebody at that level, with that user, controls the object.
#[tactic(auto, unfolding(spec_rights::specs::Levels::controls_as))]
pub fn controls_as(db: &Db, level: u8, user: Dbref, d: Dbref) -> bool
    ensures { result ≡ controls_as db.now level user d }
{
    level >= MASTER || owns(db, user, d)
}

/// The lesser of a program's own level and its owner's.
#[tactic(auto, unfolding(spec_rights::specs::Levels::effective))]
pub fn effective(db: &Db, program: Dbref) -> u8
    ensures { result ≡ effective db.now program }
{
    level_at(db, program).min(level_at(db, owner_at(db, program)))
}

/// The level at which a command acts: the highest where its player is a wizard, and else 1.
#[tactic(auto, unfolding(spec_rights::specs::Levels::command_level))]
pub fn command_level(db: &Db, player: Dbref) -> u8
    ensures { result ≡ command_level db.now player }
{
    if level_at(db, player) >= MASTER {
        MASTER
    } else {
        1
    }
}

// Whether a program has the level and the user of the one that called it.
#[tactic(auto, unfolding(spec_rights::specs::Levels::inherits))]
fn inherits(db: &Db, program: Dbref) -> bool
    ensures { result ≡ inherits db.now program }
{
    flag_at(SETUID, db, program)
        && flag_at(HAVEN, db, program)
        && level_at(db, owner_at(db, program)) >= MASTER
}

/// The level of a running program, which these called, the nearest first. It is the lesser of the program's and its
/// owner's, but that of its caller where it has S and H and a wizard owns it. It takes no memory.
#[tactic(auto, unfolding(spec_rights::specs::Levels::level))]
pub fn level(db: &Db, program: Dbref, callers: &[Dbref]) -> u8
    ensures { result ≡ level db.now program callers.now }
{
    let mut running = program;
    let mut rest = callers;
    while let Some((caller, others)) = rest.split_first() {
        if !inherits(db, running) {
            return effective(db, running);
        }
        running = *caller;
        rest = others;
    }
    effective(db, running)
}

// The user of a program by its own flags.
#[tactic(auto, unfolding(spec_rights::specs::Levels::own_user))]
fn own_user(db: &Db, player: Dbref, trigger: Dbref, program: Dbref) -> Dbref
    ensures { result ≡ own_user db.now player trigger program }
{
    if flag_at(SETUID, db, program) || effective(db, program) < 2 {
        return owner_at(db, program);
    }
    if flag_at(HAVEN, db, program) && trigger != NOTHING {
        owner_at(db, trigger)
    } else {
        player
    }
}

/// The user of a running program, by whose rights it acts: its owner where it has S or is below level 2, else the owner
/// of what triggered it where it has H, else the player; but the user of its caller where it has S and H and a wizard
/// owns it. It takes no memory.
#[tactic(auto, unfolding(spec_rights::specs::Levels::user))]
pub fn user(db: &Db, player: Dbref, trigger: Dbref, program: Dbref, callers: &[Dbref]) -> Dbref
    ensures { result ≡ user db.now player trigger program callers.now }
{
    let mut running = program;
    let mut rest = callers;
    while let Some((caller, others)) = rest.split_first() {
        if !inherits(db, running) {
            return own_user(db, player, trigger, running);
        }
        running = *caller;
        rest = others;
    }
    own_user(db, player, trigger, running)
}
