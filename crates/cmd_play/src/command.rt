// A line of a player.
ghost use Rattle.std.specs.Prelude.{◌≡◌, None, Ok, Err, MatchResult, OnOk, map};
ghost use Rattle.muck_model.specs.Bytes.{text_fault};
ghost use Rattle.spec_live.specs.Lives.{tell, either};
ghost use Rattle.spec_rights.specs.Licence.{Licensed};
ghost use Rattle.spec_commands.specs.Replies.{goodbye};
ghost use Rattle.spec_commands.specs.Finding.{place_looked_at, look_shown};
ghost use Rattle.spec_commands.specs.Reading.{is_empty, by_table};
ghost use Rattle.spec_commands.specs.Free.{free_play};
ghost use Rattle.spec_commands.specs.Commands.{play_words, play_shape, line_typed, play_done, said_by_sign, play_line};
ghost use Rattle.muck_perm.specs.inner.Guards.{Did, objects_of, world_of};
ghost use Rattle.cmd_common.specs.inner.Plays.{Plays};
ghost use Rattle.cmd_common.specs.inner.Takes.{word_row};
ghost use Rattle.cmd_play.specs.inner.Saying.{SaysSo};

use crate::going::{go, go_home};
use crate::looking::{examine, inventory, look, look_at};
use crate::taking::{drop, take};
use crate::talking::{page, pose, say, whisper, who};
use crate::typed::typed_of;
use cmd_common::{after_sign, after_word, arguments, looked_up};
use muck_model::{Line, NoMemory};
use muck_perm::Guard;
use muck_queue::Queue;
use spec_commands::{
    Argument, Arguments, Form, Outcome, PlayWord, Shape, Typed, Want, cut_word, trim,
};
use std::alloc::Global;

// The words of players.
#[tactic(auto, unfolding(spec_commands::specs::Commands::play_words))]
fn words() -> &'static [(&'static [u8], PlayWord)]
    ensures { map word_row result.now ≡ play_words }
{
    &[
        (b"say", PlayWord::Say),
        (b"pose", PlayWord::Pose),
        (b"page", PlayWord::Page),
        (b"whisper", PlayWord::Whisper),
        (b"WHO", PlayWord::Who),
        (b"QUIT", PlayWord::Quit),
        (b"look", PlayWord::Look),
        (b"l", PlayWord::Look),
        (b"read", PlayWord::Look),
        (b"examine", PlayWord::Examine),
        (b"inventory", PlayWord::Inventory),
        (b"i", PlayWord::Inventory),
        (b"go", PlayWord::Go),
        (b"move", PlayWord::Go),
        (b"home", PlayWord::Home),
        (b"get", PlayWord::Get),
        (b"take", PlayWord::Get),
        (b"drop", PlayWord::Drop),
    ]
}

// How each takes the text behind its word.
fn shape_of(command: PlayWord) -> Shape
    ensures { result ≡ play_shape command }
{
    match command {
        PlayWord::Look => Shape::new(Form::Any, Want::Object, Want::Nothing),
        PlayWord::Say | PlayWord::Pose | PlayWord::Go => {
            Shape::new(Form::One, Want::Text, Want::Nothing)
        }
        PlayWord::Page => Shape::new(Form::Two, Want::Player, Want::Text),
        PlayWord::Whisper => Shape::new(Form::Two, Want::Found, Want::Text),
        PlayWord::Get | PlayWord::Drop => Shape::new(Form::One, Want::Found, Want::Nothing),
        PlayWord::Examine => Shape::new(Form::One, Want::Object, Want::Nothing),
        PlayWord::Inventory | PlayWord::Home | PlayWord::Who | PlayWord::Quit => {
            Shape::new(Form::Any, Want::Nothing, Want::Nothing)
        }
    }
}

// The player looks where it is, or at what it has named.
#[tactic(auto, unfolding(spec_live::specs::Lives::either))]
fn look_around(guard: &mut Guard, d: u32, typed: &Typed, named: &Argument) -> Result<(), NoMemory>
    ensures { Did (either (is_empty named.now.text) (place_looked_at d guard.old.actor typed.now) (look_shown d guard.old.actor typed.now named.now.object)) guard.old guard.new result }
{
    if named.text.as_slice().is_empty() {
        look(guard, d, typed)
    } else {
        look_at(guard, d, typed, named.object)
    }
}

#[tactic(auto, unfolding(spec_commands::specs::Replies::goodbye))]
fn say_goodbye(guard: &mut Guard, d: u32) -> Result<(), NoMemory>
    ensures { Did (tell d goodbye) guard.old guard.new result }
{
    guard.tell(d, b"Come back later!")
}

// A command that nothing is to follow.
fn done(shown: Result<(), NoMemory>) -> Result<Outcome, NoMemory>
    ensures { MatchResult shown (λ x. result ≡ Ok Outcome.Done) (λ e. result ≡ Err e) }
{
    shown?;
    Ok(Outcome::Done)
}

// It was said or posed.
fn said(
    shown: Result<(), NoMemory>,
    alloc: Global,
    pose: bool,
    text: &Line,
) -> Result<Outcome, NoMemory>
    ensures { SaysSo shown pose text.now result }
{
    shown?;
    let text = text.copy(alloc)?;
    Ok(Outcome::Said { pose, text })
}

// What each does. What was typed is kept for those alone that show a message.
#[tactic(auto, using(cmd_common::proofs::Doing::plays_done, crate::proofs::Saying::plays_said), unfolding(spec_commands::specs::Going::ended, spec_commands::specs::Commands::play_done))]
fn perform(
    guard: &mut Guard,
    d: u32,
    command: PlayWord,
    word: &[u8],
    rest: &Line,
    args: &Arguments,
) -> Result<Outcome, NoMemory>
    requires { text_fault word.now ≡ None }
    ensures { Plays (play_done d guard.old.actor (record { word = word.now; rest = rest.now }) command args.now) guard.old guard.new result }
{
    let alloc = guard.alloc();
    let rest = rest.as_slice();
    let first = &args.first;
    let text = &args.second.text;
    match command {
        PlayWord::Look => done(look_around(guard, d, &typed_of(alloc, word, rest)?, first)),
        PlayWord::Say => said(say(guard, d, &first.text), alloc, false, &first.text),
        PlayWord::Pose => said(pose(guard, d, &first.text), alloc, true, &first.text),
        PlayWord::Page => done(page(guard, d, first.object, text)),
        PlayWord::Whisper => done(whisper(guard, d, first.object, text)),
        PlayWord::Go => go(guard, d, &first.text),
        PlayWord::Get => done(take(guard, d, &typed_of(alloc, word, rest)?, first.object)),
        PlayWord::Drop => done(drop(guard, d, &typed_of(alloc, word, rest)?, first.object)),
        PlayWord::Inventory => done(inventory(guard, d)),
        PlayWord::Home => done(go_home(guard, d, &typed_of(alloc, word, rest)?)),
        PlayWord::Examine => done(examine(guard, d, first.object)),
        PlayWord::Who => done(who(guard, d)),
        PlayWord::Quit => {
            say_goodbye(guard, d)?;
            Ok(Outcome::Leave)
        }
    }
}

// A command with the text behind its word.
#[tactic(auto, unfolding(spec_commands::specs::Commands::said_by_sign))]
fn do_command(
    guard: &mut Guard,
    d: u32,
    command: PlayWord,
    word: &[u8],
    text: &Line,
) -> Result<Outcome, NoMemory>
    requires { text_fault word.now ≡ None }
    ensures { Plays (said_by_sign d guard.old.actor command word.now text.now) guard.old guard.new result }
{
    match arguments(guard, d, word, shape_of(command), text)? {
        Some(args) => perform(guard, d, command, word, text, &args),
        None => Ok(Outcome::Done),
    }
}

// A line that doesn't begin with a sign.
#[tactic(auto, using(cmd_common::proofs::Texts::parts_are_texts), unfolding(spec_live::specs::Lives::unchanged, spec_commands::specs::Going::ended, spec_commands::specs::Reading::by_table, spec_commands::specs::Commands::said_by_sign))]
fn do_words(guard: &mut Guard, d: u32, line: &Line) -> Result<Outcome, NoMemory>
    ensures { Plays (by_table play_words play_shape (play_done d guard.old.actor (line_typed line.now)) d guard.old.actor line.now) guard.old guard.new result }
{
    let (word, _) = cut_word(trim(line.as_slice()));
    let Some(command) = looked_up(words(), word) else {
        return Ok(Outcome::NotMine);
    };
    let text = after_word(guard.alloc(), line)?;
    do_command(guard, d, command, word, &text)
}

// Any line.
#[tactic(auto, unfolding(spec_live::specs::Lives::unchanged, spec_commands::specs::Going::ended, spec_commands::specs::Commands::play_line))]
fn do_line(guard: &mut Guard, d: u32, line: &Line) -> Result<Outcome, NoMemory>
    ensures { Plays (play_line d guard.old.actor line.now) guard.old guard.new result }
{
    match line.as_slice().first() {
        None => Ok(Outcome::NotMine),
        Some(b'"') => {
            let text = after_sign(guard.alloc(), line)?;
            do_command(guard, d, PlayWord::Say, b"say", &text)
        }
        Some(b':') => {
            let text = after_sign(guard.alloc(), line)?;
            do_command(guard, d, PlayWord::Pose, b"pose", &text)
        }
        Some(_) => do_words(guard, d, line),
    }
}

/// Does a line of the player at the connection `d`: what stands behind `"` is said and what stands behind `:` is posed,
/// and another line does what its first word says. `Said` comes for what was said or posed. `NotMine` comes exactly where there is no such sign and the first
/// word is none of a player's; nothing has happened then. `Leave` comes exactly for `QUIT`, and `Start` where the player
/// goes through an exit to a program. What differs behind it is open to the actor, and the processes are as they were,
/// since no command of a player looks at them. After `NoMemory` nothing is said of the world.
pub fn run(guard: &mut Guard, queue: &mut Queue, d: u32, line: &Line) -> Result<Outcome, NoMemory>
    ensures plays { Plays (play_line d guard.old.actor line.now) guard.old guard.new result }
    ensures licensed { OnOk result (Licensed guard.old.actor (free_play guard.old.actor line.now (objects_of guard.old)) (world_of guard.old) (world_of guard.new)) }
    ensures queue { queue.new ≡ queue.old }
{
    let _ = queue;
    do_line(guard, d, line)
}
