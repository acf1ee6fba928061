// A line of a builder.
ghost use Rattle.std.specs.Prelude.{◌≡◌, find, map, OnOk};
ghost use Rattle.spec_live.specs.Messages.{row_of, messages};
ghost use Rattle.spec_rights.specs.Licence.{Licensed, clearing, nobody};
ghost use Rattle.spec_commands.specs.Free.{clears};
ghost use Rattle.spec_commands.specs.Texts.{is_alike};
ghost use Rattle.spec_commands.specs.Reading.{looked_up, shaped, with_arguments};
ghost use Rattle.spec_commands.specs.Commands.{build_own, build_words, build_shape, build_done, build_line};
ghost use Rattle.muck_perm.specs.inner.Guards.{world_of};
ghost use Rattle.cmd_common.specs.inner.Plays.{Plays};
ghost use Rattle.cmd_common.specs.inner.Takes.{word_row, AreJudged};

use crate::locks::{lock, unlock};
use crate::making::{make, make_thing, open};
use crate::messages::set_message;
use crate::programs::{edit, list, program, start};
use crate::searching::find;
use crate::settings::assign;
use crate::writing::{link, rename, unlink};
use cmd_common::{Write, after_word, arguments, done, looked_up, try_write};
use muck_model::{Dbref, Line, NoMemory};
use muck_perm::Guard;
use muck_queue::Queue;
use spec_commands::{Arguments, BuildWord, Form, New, Outcome, Shape, Want, alike, cut_word, trim};
use spec_live::Message;

static WORDS: [(&[u8], BuildWord); 18] = [
    (b"@dig", BuildWord::Dig),
    (b"@create", BuildWord::Create),
    (b"@open", BuildWord::Open),
    (b"@action", BuildWord::Action),
    (b"@link", BuildWord::Link),
    (b"@unlink", BuildWord::Unlink),
    (b"@name", BuildWord::Name),
    (b"@lock", BuildWord::Lock),
    (b"@unlock", BuildWord::Unlock),
    (b"@teleport", BuildWord::Teleport),
    (b"@recycle", BuildWord::Recycle),
    (b"@chown", BuildWord::Chown),
    (b"@set", BuildWord::Assign),
    (b"@find", BuildWord::Find),
    (b"@program", BuildWord::Program),
    (b"@edit", BuildWord::Edit),
    (b"@list", BuildWord::List),
    (b"@run", BuildWord::Run),
];

// The words of builders but for messages.
#[tactic(auto, unfolding(spec_commands::specs::Commands::build_own))]
fn words() -> &'static [(&'static [u8], BuildWord)]
    ensures { map word_row result.now ≡ build_own }
{
    &WORDS
}

// The message that a word sets, in any case of letters.
fn message_set(word: &[u8]) -> Option<Message>
    ensures { result ≡ find (λ m. is_alike word.now (row_of m).word) messages }
{
    Message::all()
        .iter()
        .copied()
        .find(|message| alike(word, message.row().word))
}

// The command of a word, in any case of letters.
#[tactic(auto, using(crate::proofs::Words::own_found, crate::proofs::Words::message_found, crate::proofs::Words::none_found))]
fn command_of(word: &[u8]) -> Option<BuildWord>
    ensures { result ≡ looked_up build_words word.now }
{
    match looked_up(words(), word) {
        Some(command) => Some(command),
        None => match message_set(word) {
            Some(message) => Some(BuildWord::Set(message)),
            None => None,
        },
    }
}

// How a command takes the text behind its word.
fn shape_of(command: BuildWord) -> Shape
    ensures { result ≡ build_shape command }
{
    let (form, first, second) = match command {
        BuildWord::Dig | BuildWord::Create | BuildWord::Program => (
            Form::One,
            Want::NewName,
            Want::Nothing,
        ),
        BuildWord::Unlock | BuildWord::Recycle => (Form::One, Want::Object, Want::Nothing),
        BuildWord::Edit | BuildWord::List => (Form::One, Want::Program, Want::Nothing),
        BuildWord::Unlink => (Form::One, Want::Found, Want::Nothing),
        BuildWord::Find => (Form::One, Want::Text, Want::Nothing),
        BuildWord::Open => (Form::OneOrFull, Want::NewName, Want::Found),
        BuildWord::Action => (Form::Full, Want::NewName, Want::Object),
        BuildWord::Link => (Form::Full, Want::Found, Want::Found),
        BuildWord::Teleport => (Form::Full, Want::Object, Want::Found),
        BuildWord::Chown => (Form::Full, Want::Object, Want::Player),
        BuildWord::Assign => (Form::Full, Want::Object, Want::Text),
        BuildWord::Name => (Form::Two, Want::Object, Want::NewName),
        BuildWord::Set(_) | BuildWord::Lock => (Form::Two, Want::Object, Want::Text),
        BuildWord::Run => (Form::Two, Want::Program, Want::Text),
    };
    Shape::new(form, first, second)
}

// Does what a command asks, with its arguments.
#[tactic(auto, using(cmd_common::proofs::Doing::plays_done), unfolding(spec_commands::specs::Going::ended, spec_commands::specs::Commands::build_done, spec_commands::specs::Building::teleported, spec_commands::specs::Building::recycled_by_command, spec_commands::specs::Building::chowned, spec_commands::specs::Replies::teleported_reply, spec_commands::specs::Replies::recycled_reply, spec_commands::specs::Replies::chowned_reply))]
fn perform(
    guard: &mut Guard,
    d: u32,
    line: &Line,
    command: BuildWord,
    args: Arguments,
) -> Result<Outcome, NoMemory>
    requires { AreJudged (build_shape command) args }
    ensures { Plays (build_done d guard.old.actor line.now command args) guard.old guard.new result }
{
    let x = args.first.object;
    let y = args.second.object;
    let text = args.first.text;
    let behind = args.second.text;
    match command {
        BuildWord::Dig => done(make(guard, d, New::Room, text, Dbref(0))),
        BuildWord::Create => done(make_thing(guard, d, text)),
        BuildWord::Open => done(open(guard, d, text, y)),
        BuildWord::Action => done(make(guard, d, New::Exit(Dbref(-1)), text, y)),
        BuildWord::Link => done(link(guard, d, x, y)),
        BuildWord::Unlink => done(unlink(guard, d, x)),
        BuildWord::Name => done(rename(guard, d, x, behind)),
        BuildWord::Set(message) => done(set_message(guard, d, x, message, behind)),
        BuildWord::Lock => done(lock(guard, d, x, &behind)),
        BuildWord::Unlock => done(unlock(guard, d, x)),
        BuildWord::Teleport => done(try_write(guard, d, Write::Place(x, y), b"Teleported.")),
        BuildWord::Recycle => done(try_write(guard, d, Write::Recycle(x), b"Recycled.")),
        BuildWord::Chown => done(try_write(guard, d, Write::Owner(x, y), b"Owner changed.")),
        BuildWord::Assign => done(assign(guard, d, x, &behind)),
        BuildWord::Find => done(find(guard, d, &text)),
        BuildWord::Program => program(guard, d, text),
        BuildWord::Edit => edit(guard, d, x),
        BuildWord::List => list(guard, d, x),
        BuildWord::Run => start(guard, d, line, x, behind),
    }
}

// A command with the text behind its word.
#[tactic(auto, using(cmd_common::proofs::Taking::plays_taken))]
fn do_command(
    guard: &mut Guard,
    d: u32,
    line: &Line,
    command: BuildWord,
    word: &[u8],
    text: &Line,
) -> Result<Outcome, NoMemory>
    ensures { Plays (with_arguments d guard.old.actor word.now (build_shape command) text.now (build_done d guard.old.actor line.now command)) guard.old guard.new result }
{
    match arguments(guard, d, word, shape_of(command), text)? {
        Some(args) => perform(guard, d, line, command, args),
        None => Ok(Outcome::Done),
    }
}

// Reads a line and does what it asks.
#[tactic(auto, unfolding(spec_commands::specs::Commands::build_line, spec_commands::specs::Reading::by_table, spec_commands::specs::Going::ended, spec_live::specs::Lives::unchanged))]
fn play(guard: &mut Guard, d: u32, line: &Line) -> Result<Outcome, NoMemory>
    ensures { Plays (build_line d guard.old.actor line.now) guard.old guard.new result }
{
    let (word, _) = cut_word(trim(line.as_slice()));
    let Some(command) = command_of(word) else {
        return Ok(Outcome::NotMine);
    };
    let text = after_word(guard.alloc(), line)?;
    do_command(guard, d, line, command, word, &text)
}

/// Does a line of the player at the connection d, where its first word is one of builders; else it answers `NotMine`, and
/// nothing has changed. `Edit` comes exactly where the editor of a program is to be opened, and `Start` where a program is
/// to be started. What it changes is open to the actor, who makes `#0` a home by `@unlink` alone, and the processes are as
/// they were, since no command of a builder looks at them.
#[tactic(auto, using(crate::proofs::Open::plays_open))]
pub fn run(guard: &mut Guard, queue: &mut Queue, d: u32, line: &Line) -> Result<Outcome, NoMemory>
    ensures plays { Plays (build_line d guard.old.actor line.now) guard.old guard.new result }
    ensures licensed { OnOk result (Licensed guard.old.actor (clearing (clears line.now) nobody) (world_of guard.old) (world_of guard.new)) }
    ensures queue { queue.new ≡ queue.old }
{
    let _ = queue;
    play(guard, d, line)
}
