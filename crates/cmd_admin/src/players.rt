// Making players, and passwords.
ghost use Rattle.std.specs.Prelude.{◌≡◌, ◌≤◌, true, None, length};
ghost use Rattle.spec_live.specs.Setting.{password_check};
ghost use Rattle.spec_live.specs.Lives.{◌▸◌};
ghost use Rattle.spec_rights.specs.declared.act.Act.{Act};
ghost use Rattle.spec_rights.specs.Changing.{password_kept};
ghost use Rattle.spec_rights.specs.Levels.{dbref_number};
ghost use Rattle.spec_rights.specs.Verdict.{verdict};
ghost use Rattle.spec_commands.specs.Building.{allowed, created_shown, done_where};
ghost use Rattle.spec_admin.specs.Players.{is_password, salt_of, password_drawn, player_put, player_made, password_changed};
ghost use Rattle.spec_admin.specs.Replies.{password_reply};
ghost use Rattle.muck_perm.specs.inner.Guards.{Did, IsLeave, objects_of, world_of};
ghost use Rattle.cmd_admin.specs.inner.Refused.{IsRefused};

use cmd_common::{bad_name, cant_be_done, is_player_name, number_of, refuse, show_created};
use muck_model::{Dbref, Kind, Line, NoMemory};
use muck_perm::{Guard, Pass, verdict};
use spec_live::DbFault;
use spec_rights::Act;

const ROOM_ZERO: Dbref = Dbref(0);

/// The most bytes of a password.
const PASSWORD_MOST: usize = 32;

#[tactic(auto, unfolding(spec_admin::specs::Players::password_most))]
fn is_password(word: &[u8]) -> bool
    ensures { result ≡ is_password word.now }
{
    word.len() <= PASSWORD_MOST
}

// A salt of two random words, the first of them the upper half.
fn salt_of(first: u32, second: u32) -> u64
    ensures { result ≡ salt_of first second }
{
    u64::from(first) * 4_294_967_296 + u64::from(second)
}

// Whether an object is there and is a player.
fn is_player(guard: &Guard, x: Dbref) -> bool
    ensures { result ≡ allowed (password_check x (objects_of guard.now)) }
{
    match guard.db().get(x) {
        Some(object) => matches!(object.kind(), Kind::Player),
        None => false,
    }
}

// A player gets a password by leave, under this salt.
#[tactic(auto, using(cmd_common::proofs::Written::tries_done))]
fn keep_password(
    guard: &mut Guard,
    pass: Pass,
    x: Dbref,
    salt: u64,
    word: &Line,
) -> Result<(), NoMemory>
    requires leave { IsLeave pass (Act.Password x) guard.old }
    requires player { allowed (password_check x (objects_of guard.old)) ≡ true }
    ensures { Did (password_kept x salt word.now) guard.old guard.new result }
{
    match guard.set_password(pass, x, salt, word) {
        Ok(()) => Ok(()),
        Err(DbFault::NoMemory) => Err(NoMemory),
        Err(_) => unreachable!(),
    }
}

// A player gets a password by leave, under a salt that is drawn for it.
#[tactic(auto, using(crate::proofs::Drawn::leave_drawn, crate::proofs::Drawn::allowed_drawn, crate::proofs::Drawn::password_given))]
fn give_password(guard: &mut Guard, pass: Pass, x: Dbref, word: &Line) -> Result<(), NoMemory>
    requires leave { IsLeave pass (Act.Password x) guard.old }
    requires player { allowed (password_check x (objects_of guard.old)) ≡ true }
    ensures { Did (password_drawn x word.now) guard.old guard.new result }
{
    let first = guard.random();
    let second = guard.random();
    keep_password(guard, pass, x, salt_of(first, second), word)
}

// A new player gets its password, and the connection is told what was made.
#[tactic(auto, unfolding(spec_live::specs::Lives::change_followed))]
fn complete(guard: &mut Guard, d: u32, x: Dbref, word: &Line) -> Result<(), NoMemory>
    requires leave { verdict (objects_of guard.old) guard.old.actor (Act.Password x) ≡ None }
    requires player { allowed (password_check x (objects_of guard.old)) ≡ true }
    ensures { Did (password_drawn x word.now ▸ created_shown d (dbref_number x)) guard.old guard.new result }
{
    let actor = guard.actor();
    match verdict(guard.db(), &actor, &Act::Password { player: x }) {
        Ok(pass) => give_password(guard, pass, x, word)?,
        Err(_) => unreachable!(),
    }
    show_created(guard, d, number_of(x))
}

// The world makes no player, and the connection is told so.
fn tell_refused(guard: &mut Guard, d: u32, fault: DbFault) -> Result<(), NoMemory>
    ensures { IsRefused d fault guard.old guard.new result }
{
    match fault {
        DbFault::NoMemory => Err(NoMemory),
        _ => cant_be_done(guard, d),
    }
}

// Makes a player in `#0` by leave, where the world allows one more.
#[tactic(auto, using(crate::proofs::Made::wizard_gives))]
fn put_player(
    guard: &mut Guard,
    d: u32,
    pass: Pass,
    name: Line,
    word: &Line,
) -> Result<(), NoMemory>
    requires leave { IsLeave pass Act.Wizard guard.old }
    requires some { 1 ≤ length name }
    requires short { length name ≤ 80 }
    ensures { Did (player_put d guard.old.actor name word.now) guard.old guard.new result }
{
    match guard.create_player(pass, name, ROOM_ZERO) {
        Ok(x) => complete(guard, d, x, word),
        Err(fault) => tell_refused(guard, d, fault),
    }
}

/// `@pcreate`: makes a player of a name that no player has, with a password that isn't too long.
#[tactic(auto, unfolding(spec_admin::specs::Players::player_made, spec_commands::specs::Finding::where_so, spec_live::specs::Lives::reading, spec_live::specs::Lives::either, spec_rights::specs::Asking::asked))]
pub fn make_player(guard: &mut Guard, d: u32, name: Line, word: &Line) -> Result<(), NoMemory>
    ensures { Did (player_made d guard.old.actor name word.now) guard.old guard.new result }
{
    if !is_player_name(guard.db(), name.as_slice()) {
        return bad_name(guard, d);
    }
    if !is_password(word.as_slice()) {
        return cant_be_done(guard, d);
    }
    let actor = guard.actor();
    match verdict(guard.db(), &actor, &Act::Wizard) {
        Err(denial) => refuse(guard, d, denial),
        Ok(pass) => put_player(guard, d, pass, name, word),
    }
}

// Gives a player another password by leave, and the connection is told so; or that it can't be done.
#[tactic(auto, unfolding(spec_commands::specs::Building::done_where, spec_commands::specs::Finding::where_so, spec_admin::specs::Replies::password_reply, spec_live::specs::Lives::reading, spec_live::specs::Lives::either, spec_live::specs::Lives::change_followed))]
fn change_by(guard: &mut Guard, d: u32, pass: Pass, x: Dbref, word: &Line) -> Result<(), NoMemory>
    requires { IsLeave pass (Act.Password x) guard.old }
    ensures { Did (done_where d (λ w. allowed (password_check x w.objects)) (password_drawn x word.now) password_reply) guard.old guard.new result }
{
    if !is_player(guard, x) {
        return cant_be_done(guard, d);
    }
    give_password(guard, pass, x, word)?;
    guard.tell(d, b"Password changed.")
}

/// `@newpassword`: gives a player another password, which isn't too long.
#[tactic(auto, unfolding(spec_admin::specs::Players::password_changed, spec_commands::specs::Building::change_by_leave, spec_live::specs::Lives::either, spec_rights::specs::Asking::asked))]
pub fn change_password(guard: &mut Guard, d: u32, x: Dbref, word: &Line) -> Result<(), NoMemory>
    ensures { Did (password_changed d guard.old.actor x word.now) guard.old guard.new result }
{
    if !is_password(word.as_slice()) {
        return cant_be_done(guard, d);
    }
    let actor = guard.actor();
    let act = Act::Password { player: x };
    match verdict(guard.db(), &actor, &act) {
        Err(denial) => refuse(guard, d, denial),
        Ok(pass) => change_by(guard, d, pass, x, word),
    }
}
