// A line of a keeper.
ghost use Rattle.std.specs.Prelude.{◌≡◌, map, OnOk, OnErr};
ghost use Rattle.std.specs.Option.{option_map_or};
ghost use Rattle.spec_rights.specs.Licence.{Licensed, nobody};
ghost use Rattle.spec_commands.specs.Reading.{with_arguments};
ghost use Rattle.muck_queue.specs.Queues.{without_process};
ghost use Rattle.spec_admin.specs.Lines.{admin_words, admin_shape, admin_done, admin_line, ended_by, after_line};
ghost use Rattle.muck_perm.specs.inner.Guards.{world_of};
ghost use Rattle.cmd_common.specs.inner.Plays.{Plays};
ghost use Rattle.cmd_common.specs.inner.Takes.{word_row, AreJudged};

use crate::parameters::tune;
use crate::players::{change_password, make_player};
use crate::processes::{kill, list};
use crate::talking::{boot, dump, shut_down, wall};
use cmd_common::{after_word, arguments, done, looked_up};
use muck_model::{Line, NoMemory};
use muck_perm::Guard;
use muck_queue::Queue;
use spec_admin::AdminWord;
use spec_commands::{Arguments, Form, Outcome, Shape, Want, cut_word, trim};

static WORDS: [(&[u8], AdminWord); 9] = [
    (b"@ps", AdminWord::Processes),
    (b"@kill", AdminWord::Kill),
    (b"@tune", AdminWord::Tune),
    (b"@boot", AdminWord::Boot),
    (b"@wall", AdminWord::Wall),
    (b"@pcreate", AdminWord::NewPlayer),
    (b"@newpassword", AdminWord::NewPassword),
    (b"@dump", AdminWord::Dump),
    (b"@shutdown", AdminWord::Shutdown),
];

// The words of keepers.
#[tactic(auto, unfolding(spec_admin::specs::Lines::admin_words))]
fn words() -> &'static [(&'static [u8], AdminWord)]
    ensures { map word_row result.now ≡ admin_words }
{
    &WORDS
}

// How a command takes the text behind its word.
fn shape_of(command: AdminWord) -> Shape
    ensures { result ≡ admin_shape command }
{
    let (form, first, second) = match command {
        AdminWord::Processes | AdminWord::Dump | AdminWord::Shutdown => (
            Form::Any,
            Want::Nothing,
            Want::Nothing,
        ),
        AdminWord::Tune => (Form::Any, Want::Text, Want::Nothing),
        AdminWord::Kill | AdminWord::Wall => (Form::One, Want::Text, Want::Nothing),
        AdminWord::Boot => (Form::One, Want::Player, Want::Nothing),
        AdminWord::NewPlayer => (Form::Full, Want::NewName, Want::Text),
        AdminWord::NewPassword => (Form::Full, Want::Player, Want::Text),
    };
    Shape::new(form, first, second)
}

// Does what a command asks, with its arguments.
#[tactic(auto, using(cmd_common::proofs::Doing::plays_done), unfolding(spec_admin::specs::Lines::admin_done, spec_commands::specs::Going::ended))]
fn perform(
    guard: &mut Guard,
    queue: &mut Queue,
    d: u32,
    command: AdminWord,
    args: Arguments,
) -> Result<Outcome, NoMemory>
    ensures plays { Plays (admin_done queue.old d guard.old.actor command args) guard.old guard.new result }
    ensures queue { OnOk result (queue.new ≡ option_map_or (λ p. without_process p.number queue.old) (ended_by guard.old.actor queue.old args.first.text (world_of guard.old) (Some command)) queue.old) }
    ensures kept { OnErr result (queue.new ≡ queue.old) }
{
    let x = args.first.object;
    let text = args.first.text;
    let behind = args.second.text;
    match command {
        AdminWord::Processes => done(list(guard, queue, d)),
        AdminWord::Kill => done(kill(guard, queue, d, &text)),
        AdminWord::Tune => tune(guard, d, &text),
        AdminWord::Boot => boot(guard, d, x),
        AdminWord::Wall => wall(guard, d, &text),
        AdminWord::NewPlayer => done(make_player(guard, d, text, &behind)),
        AdminWord::NewPassword => done(change_password(guard, d, x, &behind)),
        AdminWord::Dump => dump(guard, d),
        AdminWord::Shutdown => shut_down(guard, d),
    }
}

// A command with the text behind its word.
#[tactic(auto, using(cmd_common::proofs::Taking::plays_taken))]
fn do_command(
    guard: &mut Guard,
    queue: &mut Queue,
    d: u32,
    command: AdminWord,
    word: &[u8],
    text: &Line,
) -> Result<Outcome, NoMemory>
    ensures plays { Plays (with_arguments d guard.old.actor word.now (admin_shape command) text.now (admin_done queue.old d guard.old.actor command)) guard.old guard.new result }
    ensures queue { OnOk result (queue.new ≡ option_map_or (λ p. without_process p.number queue.old) (ended_by guard.old.actor queue.old text.now (world_of guard.old) (Some command)) queue.old) }
    ensures kept { OnErr result (queue.new ≡ queue.old) }
{
    match arguments(guard, d, word, shape_of(command), text)? {
        Some(args) => perform(guard, queue, d, command, args),
        None => Ok(Outcome::Done),
    }
}

// Reads a line and does what it asks.
#[tactic(auto, unfolding(spec_admin::specs::Lines::admin_line, spec_admin::specs::Lines::after_line, spec_admin::specs::Lines::line_ends, spec_commands::specs::Reading::by_table, spec_commands::specs::Going::ended, spec_live::specs::Lives::unchanged))]
fn play(guard: &mut Guard, queue: &mut Queue, d: u32, line: &Line) -> Result<Outcome, NoMemory>
    ensures plays { Plays (admin_line queue.old d guard.old.actor line.now) guard.old guard.new result }
    ensures queue { OnOk result (queue.new ≡ after_line guard.old.actor line.now (world_of guard.old) queue.old) }
    ensures kept { OnErr result (queue.new ≡ queue.old) }
{
    let (word, _) = cut_word(trim(line.as_slice()));
    let Some(command) = looked_up(words(), word) else {
        return Ok(Outcome::NotMine);
    };
    let text = after_word(guard.alloc(), line)?;
    do_command(guard, queue, d, command, word, &text)
}

/// Does a line of the player at the connection d, where its first word is one of keepers; else it answers `NotMine`, and nothing has changed. `Retune` comes exactly
/// where a wizard sets a parameter, `Dump` where one asks for a dump, and `Stop` where the world is to stop; who called does these. Of the processes the one ends that
/// `@kill` names, where the player may end it. After `NoMemory` the processes are as they were. What it changes is open to the actor.
#[tactic(auto, using(crate::proofs::Open::plays_open))]
pub fn run(guard: &mut Guard, queue: &mut Queue, d: u32, line: &Line) -> Result<Outcome, NoMemory>
    ensures plays { Plays (admin_line queue.old d guard.old.actor line.now) guard.old guard.new result }
    ensures queue { OnOk result (queue.new ≡ after_line guard.old.actor line.now (world_of guard.old) queue.old) }
    ensures kept { OnErr result (queue.new ≡ queue.old) }
    ensures licensed { OnOk result (Licensed guard.old.actor nobody (world_of guard.old) (world_of guard.new)) }
{
    play(guard, queue, d, line)
}
