// All commands, on a world that is lent to a player.
ghost use Rattle.std.specs.Prelude.{◌≡◌, OnOk};
ghost use Rattle.spec_commands.specs.Finding.{actor_of};
ghost use Rattle.spec_commands.specs.Commands.{commanded, begins_with_sign, played};
ghost use Rattle.spec_admin.specs.Lines.{after_line};
ghost use Rattle.spec_events.specs.Lines.{by_keeper, typed, processes_after_line};
ghost use Rattle.muck_perm.specs.inner.Guards.{world_of};
ghost use Rattle.cmd_common.specs.inner.Plays.{Plays};

use muck_db::Db;
use muck_match::exit_for;
use muck_model::{Dbref, Line, NoMemory};
use muck_perm::{Guard, command_level};
use muck_queue::Queue;
use spec_commands::Outcome;
use spec_rights::Actor;

/// A player acts by its own rights.
#[tactic(auto, unfolding(spec_commands::specs::Finding::actor_of))]
pub fn actor_of(db: &Db, player: Dbref) -> Actor
    ensures { result ≡ actor_of db.now player }
{
    Actor {
        level: command_level(db, player),
        user: player,
        player,
    }
}

/// Does a line of a player: one of players or builders, or else one of keepers, which may end a process; what is none of
/// these is told so.
#[tactic(auto, unfolding(spec_events::specs::Lines::typed, spec_events::specs::Lines::processes_after_line, spec_commands::specs::Commands::play_or_else), using(crate::proofs::Outcomes::or_next_mine, crate::proofs::Outcomes::ended_behind_mine))]
pub fn play(guard: &mut Guard, queue: &mut Queue, d: u32, line: &Line) -> Result<Outcome, NoMemory>
    ensures plays { Plays (typed queue.old d guard.old.actor line.now) guard.old guard.new result }
    ensures queue { OnOk result (queue.new ≡ processes_after_line d guard.old.actor line.now (world_of guard.old) queue.old) }
{
    match by_player(guard, queue, d, line)? {
        Outcome::NotMine => by_keeper(guard, queue, d, line),
        outcome => Ok(outcome),
    }
}

// Does a line that is neither a player's nor a builder's.
#[tactic(auto, unfolding(spec_events::specs::Lines::by_keeper, spec_commands::specs::Commands::play_or_else, spec_commands::specs::Going::ended, spec_commands::specs::Replies::huh), using(crate::proofs::Outcomes::or_next_mine))]
fn by_keeper(guard: &mut Guard, queue: &mut Queue, d: u32, line: &Line) -> Result<Outcome, NoMemory>
    ensures plays { Plays (by_keeper queue.old d guard.old.actor line.now) guard.old guard.new result }
    ensures queue { OnOk result (queue.new ≡ after_line guard.old.actor line.now (world_of guard.old) queue.old) }
{
    match cmd_admin::run(guard, queue, d, line)? {
        Outcome::NotMine => {
            guard.tell(d, b"Huh?  (Type \"help\" for help.)")?;
            Ok(Outcome::Done)
        }
        outcome => Ok(outcome),
    }
}

// Does a line of players or builders: saying and posing come first, then exits, then commands.
#[tactic(auto, unfolding(spec_commands::specs::Commands::played, spec_live::specs::Lives::reading))]
fn by_player(guard: &mut Guard, queue: &mut Queue, d: u32, line: &Line) -> Result<Outcome, NoMemory>
    ensures plays { Plays (played d guard.old.actor line.now) guard.old guard.new result }
    ensures queue { queue.new ≡ queue.old }
{
    if begins_with_sign(line) {
        return command(guard, queue, d, line);
    }
    match exit_for(guard.db(), guard.actor().player, line) {
        Some(hit) => cmd_play::walk(guard, queue, d, hit, line),
        None => command(guard, queue, d, line),
    }
}

fn begins_with_sign(line: &Line) -> bool
    ensures { result ≡ begins_with_sign line.now }
{
    match line.as_slice().first() {
        Some(first) => *first == b'"' || *first == b':',
        None => false,
    }
}

// Does a line that no exit takes.
#[tactic(auto, unfolding(spec_commands::specs::Commands::commanded, spec_commands::specs::Commands::play_or_else), using(crate::proofs::Outcomes::or_next_mine))]
fn command(guard: &mut Guard, queue: &mut Queue, d: u32, line: &Line) -> Result<Outcome, NoMemory>
    ensures plays { Plays (commanded d guard.old.actor line.now) guard.old guard.new result }
    ensures queue { queue.new ≡ queue.old }
{
    match cmd_play::run(guard, queue, d, line)? {
        Outcome::NotMine => cmd_build::run(guard, queue, d, line),
        outcome => Ok(outcome),
    }
}
