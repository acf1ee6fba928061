// Going: home, and through exits.
ghost use Rattle.std.specs.Prelude.{◌≡◌, IfOk, OnOk, true};
ghost use Rattle.muck_match.specs.Exits.{exit_for};
ghost use Rattle.spec_live.specs.Seen.{scenery_of};
ghost use Rattle.spec_live.specs.Lives.{◌▸◌, unchanged, tell};
ghost use Rattle.spec_rights.specs.declared.act.Act.{Act};
ghost use Rattle.spec_rights.specs.Changing.{moved_to};
ghost use Rattle.spec_rights.specs.Licence.{Licensed, oneself};
ghost use Rattle.spec_commands.specs.Replies.{cant_go, has_left, has_arrived};
ghost use Rattle.spec_commands.specs.Finding.{shown_others, place_looked_at};
ghost use Rattle.spec_commands.specs.Going.{home_at, link_at, movable, player_gone, gone_home, failed, drop_shown, led_place, led, tried, exit_walked, player_went};
ghost use Rattle.muck_perm.specs.inner.Guards.{Did, Done, IsGiven, objects_of, world_of};
ghost use Rattle.cmd_common.specs.inner.Plays.{Plays};

use crate::looking::look;
use crate::messages::{message_or, message_to_others, show_both};
use crate::typed::exit_typed;
use cmd_common::{cant_be_done, is_program, show_others};
use muck_match::{ExitHit, HOME, NOTHING, exit_for};
use muck_model::{Dbref, Line, NoMemory};
use muck_perm::{Guard, Pass, verdict};
use muck_queue::Queue;
use spec_commands::{Outcome, Typed};
use spec_live::Message;
use spec_rights::Act;

// The home of an object, `#-1` where it isn't there.
fn home_at(guard: &Guard, x: Dbref) -> Dbref
    ensures { result ≡ home_at x (world_of guard.now) }
{
    match guard.db().get(x) {
        Some(object) => object.home(),
        None => NOTHING,
    }
}

/// Where an object leads, `#-1` where it isn't there.
pub fn link_at(guard: &Guard, x: Dbref) -> Dbref
    ensures { result ≡ link_at x (world_of guard.now) }
{
    match guard.db().get(x) {
        Some(object) => object.link(),
        None => NOTHING,
    }
}

// Whether the world allows a move.
fn movable(guard: &Guard, x: Dbref, to: Dbref) -> bool
    ensures { result ≡ movable x to (world_of guard.now) }
{
    guard.db().can_move(x, to)
}

/// A player may not do something with an object: the object's messages of failure, and what the player sees without one.
#[tactic(auto, unfolding(spec_commands::specs::Going::failed, spec_live::specs::Lives::change_followed))]
pub fn fail(
    guard: &mut Guard,
    d: u32,
    typed: &Typed,
    otherwise: &[u8],
    x: Dbref,
) -> Result<(), NoMemory>
    ensures { Did (failed d guard.old.actor typed.now otherwise.now x) guard.old guard.new result }
{
    message_or(guard, d, typed, otherwise, Message::Fail, x)?;
    message_to_others(guard, typed, Message::OthersFail, x)
}

// Moves the player home.
#[tactic(auto, using(crate::proofs::Moves::made_moves))]
fn step_home(guard: &mut Guard, home: Dbref)
    requires home { home_at guard.old.actor.player (world_of guard.old) ≡ home }
    requires may { movable guard.old.actor.player home (world_of guard.old) ≡ true }
    ensures { Done (moved_to guard.old.actor.player home) guard.old guard.new }
{
    match guard.go_home() {
        Ok(()) => {}
        Err(_) => unreachable!(),
    }
}

// Moves the player through an exit.
#[tactic(auto, using(crate::proofs::Moves::made_moves))]
fn step_through(guard: &mut Guard, pass: Pass, exit: Dbref, to: Dbref)
    requires leave { IsGiven pass (Act.Walk exit) guard.old }
    requires may { movable guard.old.actor.player to (world_of guard.old) ≡ true }
    ensures { Done (moved_to guard.old.actor.player to) guard.old guard.new }
{
    match guard.walk(pass, exit, to) {
        Ok(()) => {}
        Err(_) => unreachable!(),
    }
}

// The others see the player leave.
#[tactic(auto, unfolding(spec_commands::specs::Replies::has_left))]
fn show_leaving(guard: &mut Guard) -> Result<(), NoMemory>
    ensures shown { Did (shown_others guard.old.actor.player has_left) guard.old guard.new result }
    ensures kept { OnOk result (objects_of guard.new ≡ objects_of guard.old) }
{
    let player = guard.actor().player;
    show_others(guard, player, b" has left.")
}

// The others see the player arrive.
#[tactic(auto, unfolding(spec_commands::specs::Replies::has_arrived))]
fn show_arriving(guard: &mut Guard) -> Result<(), NoMemory>
    ensures { Did (shown_others guard.old.actor.player has_arrived) guard.old guard.new result }
{
    let player = guard.actor().player;
    show_others(guard, player, b" has arrived.")
}

// The player walks home, where the world allows it.
#[tactic(auto, unfolding(spec_live::specs::Lives::change_followed, spec_live::specs::Lives::unchanged))]
fn walk_home(guard: &mut Guard, d: u32, typed: &Typed, home: Dbref) -> Result<(), NoMemory>
    requires home { home_at guard.old.actor.player (world_of guard.old) ≡ home }
    requires may { movable guard.old.actor.player home (world_of guard.old) ≡ true }
    ensures { Did (shown_others guard.old.actor.player has_left ▸ moved_to guard.old.actor.player home ▸ shown_others guard.old.actor.player has_arrived ▸ unchanged ▸ place_looked_at d guard.old.actor typed.now) guard.old guard.new result }
{
    show_leaving(guard)?;
    step_home(guard, home);
    show_arriving(guard)?;
    look(guard, d, typed)
}

/// The player walks home, which others see, and looks; or the world refuses it.
#[tactic(auto, unfolding(spec_commands::specs::Going::gone_home, spec_commands::specs::Going::player_gone, spec_commands::specs::Finding::where_so, spec_live::specs::Lives::reading, spec_live::specs::Lives::either))]
pub fn go_home(guard: &mut Guard, d: u32, typed: &Typed) -> Result<(), NoMemory>
    ensures { Did (gone_home d guard.old.actor typed.now) guard.old guard.new result }
{
    let player = guard.actor().player;
    let home = home_at(guard, player);
    if !movable(guard, player, home) {
        return cant_be_done(guard, d);
    }
    walk_home(guard, d, typed, home)
}

// The player goes through an exit, where the world allows it.
#[tactic(auto, unfolding(spec_live::specs::Lives::change_followed))]
fn walk_through(
    guard: &mut Guard,
    d: u32,
    typed: &Typed,
    pass: Pass,
    exit: Dbref,
    to: Dbref,
) -> Result<(), NoMemory>
    requires leave { IsGiven pass (Act.Walk exit) guard.old }
    requires may { movable guard.old.actor.player to (world_of guard.old) ≡ true }
    ensures { Did (shown_others guard.old.actor.player has_left ▸ moved_to guard.old.actor.player to ▸ shown_others guard.old.actor.player has_arrived ▸ drop_shown d guard.old.actor typed.now exit ▸ place_looked_at d guard.old.actor typed.now) guard.old guard.new result }
{
    show_leaving(guard)?;
    step_through(guard, pass, exit, to);
    show_arriving(guard)?;
    show_both(guard, d, typed, Message::Drop, Message::OthersDrop, exit)?;
    look(guard, d, typed)
}

// The player goes through an exit to another place, which others see, sees the exit's messages of dropping, and looks;
// or the world refuses it.
#[tactic(auto, unfolding(spec_commands::specs::Going::player_gone, spec_commands::specs::Finding::where_so, spec_live::specs::Lives::reading, spec_live::specs::Lives::either))]
fn go_through(
    guard: &mut Guard,
    d: u32,
    typed: &Typed,
    pass: Pass,
    exit: Dbref,
    to: Dbref,
) -> Result<(), NoMemory>
    requires { IsGiven pass (Act.Walk exit) guard.old }
    ensures { Did (player_gone d guard.old.actor typed.now to (drop_shown d guard.old.actor typed.now exit)) guard.old guard.new result }
{
    if movable(guard, guard.actor().player, to) {
        walk_through(guard, d, typed, pass, exit, to)
    } else {
        cant_be_done(guard, d)
    }
}

#[tactic(auto, unfolding(spec_commands::specs::Replies::cant_go))]
fn cant_go(guard: &mut Guard, d: u32) -> Result<(), NoMemory>
    ensures { Did (tell d cant_go) guard.old guard.new result }
{
    guard.tell(d, b"You can't go that way.")?;
    Ok(())
}

// The place to which a link leads: home is the player's own.
fn led_place(guard: &Guard, player: Dbref, to: Dbref) -> Dbref
    ensures { result ≡ led_place player to (world_of guard.now) }
{
    if to == HOME {
        home_at(guard, player)
    } else {
        to
    }
}

// A program is to be started by a line that took an exit.
fn start(
    guard: &Guard,
    typed: &Typed,
    exit: Dbref,
    line: &Line,
    program: Dbref,
) -> Result<Outcome, NoMemory>
    ensures { IfOk result (λ outcome. outcome ≡ Outcome.Start program exit line.now typed.now.rest) }
{
    Ok(Outcome::Start {
        program,
        trigger: exit,
        command: line.copy(guard.alloc())?,
        arg: typed.rest.copy(guard.alloc())?,
    })
}

// The exit leads there: a program is to be started, and to any other place the player goes.
#[tactic(auto, unfolding(spec_commands::specs::Going::led, spec_commands::specs::Going::ended, spec_commands::specs::Finding::where_so, spec_live::specs::Lives::reading, spec_live::specs::Lives::either, spec_live::specs::Lives::unchanged))]
fn lead(
    guard: &mut Guard,
    d: u32,
    typed: &Typed,
    pass: Pass,
    exit: Dbref,
    line: &Line,
    to: Dbref,
) -> Result<Outcome, NoMemory>
    requires { IsGiven pass (Act.Walk exit) guard.old }
    ensures { Plays (led d guard.old.actor typed.now exit line.now to) guard.old guard.new result }
{
    if to == NOTHING {
        cant_go(guard, d)?;
        return Ok(Outcome::Done);
    }
    if is_program(guard, to) {
        return start(guard, typed, exit, line, to);
    }
    let place = led_place(guard, guard.actor().player, to);
    go_through(guard, d, typed, pass, exit, place)?;
    Ok(Outcome::Done)
}

// The player tries an exit.
#[tactic(auto, unfolding(spec_commands::specs::Going::tried, spec_commands::specs::Going::ended, spec_rights::specs::Asking::asked, spec_live::specs::Lives::reading, spec_live::specs::Lives::change_followed, spec_commands::specs::Replies::cant_go))]
fn try_exit(
    guard: &mut Guard,
    d: u32,
    typed: &Typed,
    exit: Dbref,
    line: &Line,
) -> Result<Outcome, NoMemory>
    ensures { Plays (tried d guard.old.actor typed.now exit line.now) guard.old guard.new result }
{
    let actor = guard.actor();
    let act = Act::Walk { exit };
    match verdict(guard.db(), &actor, &act) {
        Err(_) => {
            fail(guard, d, typed, b"You can't go that way.", exit)?;
            Ok(Outcome::Done)
        }
        Ok(pass) => {
            show_both(
                guard,
                d,
                typed,
                Message::Success,
                Message::OthersSuccess,
                exit,
            )?;
            let to = link_at(guard, exit);
            lead(guard, d, typed, pass, exit, line, to)
        }
    }
}

// The player walks through an exit that takes the line.
#[tactic(auto, unfolding(spec_commands::specs::Going::exit_walked, spec_live::specs::Lives::reading))]
fn take_exit(guard: &mut Guard, d: u32, hit: ExitHit, line: &Line) -> Result<Outcome, NoMemory>
    ensures { Plays (exit_walked d guard.old.actor hit line.now) guard.old guard.new result }
{
    let typed = exit_typed(guard, &hit, line)?;
    try_exit(guard, d, &typed, hit.exit, line)
}

/// The player walks through an exit that takes the line: where the exit's lock doesn't open, its messages of failure are
/// shown, and else those of success, and the player goes to where it leads, or a program is to be started. It never
/// answers `NotMine`. What differs behind it is open to the actor, which may move its player, and the processes are as
/// they were, since no exit looks at them. After `NoMemory` nothing is said of the world.
#[tactic(auto, using(crate::proofs::Licences::walk_licensed))]
pub fn walk(
    guard: &mut Guard,
    queue: &mut Queue,
    d: u32,
    hit: ExitHit,
    line: &Line,
) -> Result<Outcome, NoMemory>
    ensures plays { Plays (exit_walked d guard.old.actor hit line.now) guard.old guard.new result }
    ensures licensed { OnOk result (Licensed guard.old.actor (oneself guard.old.actor) (world_of guard.old) (world_of guard.new)) }
    ensures queue { queue.new ≡ queue.old }
{
    let _ = queue;
    take_exit(guard, d, hit, line)
}

/// `go` and the words that an exit takes: the player walks through that exit.
#[tactic(auto, unfolding(spec_commands::specs::Going::player_went, spec_commands::specs::Going::ended, spec_live::specs::Lives::reading))]
pub fn go(guard: &mut Guard, d: u32, line: &Line) -> Result<Outcome, NoMemory>
    ensures { Plays (player_went d guard.old.actor line.now) guard.old guard.new result }
{
    match exit_for(guard.db(), guard.actor().player, line) {
        Some(hit) => take_exit(guard, d, hit, line),
        None => {
            cant_go(guard, d)?;
            Ok(Outcome::Done)
        }
    }
}
