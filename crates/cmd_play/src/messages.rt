// The messages of objects, and the one way by which they reach anybody.
ghost use Rattle.std.specs.Prelude.{◌≡◌, ◌∷◌, None};
ghost use Rattle.muck_model.specs.Bytes.{text_fault};
ghost use Rattle.spec_commands.specs.Messages.{message_how, text_spoken, with_message};
ghost use Rattle.spec_commands.specs.Finding.{shown_others, message_or, message_shown, message_to_others};
ghost use Rattle.spec_commands.specs.Going.{both_shown};
ghost use Rattle.muck_perm.specs.inner.Guards.{Did};
ghost use Rattle.cmd_play.specs.inner.Speaking.{Speaks, Says};

use crate::texts::joined;
use cmd_common::{message_path, show_others};
use muck_model::{Dbref, Line, NoMemory};
use muck_perm::Guard;
use spec_commands::Typed;
use spec_live::Message;

// How a message is called where it is spoken.
fn how_of(message: Message) -> &'static [u8]
    ensures how { result.now ≡ message_how message }
    ensures text { text_fault result.now ≡ None }
{
    message.row().how
}

// A text that an object carries is spoken by the rights of the actor.
#[tactic(auto, using(crate::proofs::Spoken::was_said))]
fn spoken(
    guard: &mut Guard,
    x: Dbref,
    how: &[u8],
    typed: &Typed,
    text: Line,
) -> Result<Line, NoMemory>
    requires { text_fault how.now ≡ None }
    ensures { Speaks (text_spoken guard.old.actor x how.now typed.now text) guard.old guard.new result }
{
    muck_mpi::speak(guard, x, how, &typed.word, &typed.rest, text)
}

// A message of an object is spoken once, where it has one.
#[tactic(auto, unfolding(spec_commands::specs::Messages::with_message, spec_live::specs::Lives::reading))]
fn speak(
    guard: &mut Guard,
    typed: &Typed,
    message: Message,
    x: Dbref,
) -> Result<Option<Line>, NoMemory>
    ensures { Says (with_message guard.old.actor typed.now message x) guard.old guard.new result }
{
    let Some(text) = guard.message(x, message_path(guard.db().paths(), message)) else {
        return Ok(None);
    };
    let text = text.copy(guard.alloc())?;
    let text = spoken(guard, x, how_of(message), typed, text)?;
    Ok(Some(text))
}

/// The connection sees a message of an object, or what is shown without one.
#[tactic(auto, unfolding(spec_commands::specs::Finding::message_or), using(crate::proofs::Spoken::saying))]
pub fn message_or(
    guard: &mut Guard,
    d: u32,
    typed: &Typed,
    otherwise: &[u8],
    message: Message,
    x: Dbref,
) -> Result<(), NoMemory>
    ensures { Did (message_or d guard.old.actor typed.now otherwise.now message x) guard.old guard.new result }
{
    match speak(guard, typed, message, x)? {
        Some(text) => guard.tell(d, text.as_slice()),
        None => guard.tell(d, otherwise),
    }
}

/// The connection sees a message of an object, where it has one.
#[tactic(auto, unfolding(spec_commands::specs::Finding::message_shown, spec_live::specs::Lives::unchanged), using(crate::proofs::Spoken::saying))]
pub fn show_message(
    guard: &mut Guard,
    d: u32,
    typed: &Typed,
    message: Message,
    x: Dbref,
) -> Result<(), NoMemory>
    ensures { Did (message_shown d guard.old.actor typed.now message x) guard.old guard.new result }
{
    match speak(guard, typed, message, x)? {
        Some(text) => guard.tell(d, text.as_slice()),
        None => Ok(()),
    }
}

// The others where the player is see a text behind its name and a space.
fn show_behind_name(guard: &mut Guard, text: &Line) -> Result<(), NoMemory>
    ensures { Did (shown_others guard.old.actor.player (32 ∷ text.now)) guard.old guard.new result }
{
    let tail = joined(guard.alloc(), b" ", text.as_slice())?;
    let player = guard.actor().player;
    show_others(guard, player, &tail)
}

/// The others where the player is see its name with a message of an object, where it has one.
#[tactic(auto, unfolding(spec_commands::specs::Finding::message_to_others, spec_live::specs::Lives::unchanged), using(crate::proofs::Spoken::saying))]
pub fn message_to_others(
    guard: &mut Guard,
    typed: &Typed,
    message: Message,
    x: Dbref,
) -> Result<(), NoMemory>
    ensures { Did (message_to_others guard.old.actor typed.now message x) guard.old guard.new result }
{
    match speak(guard, typed, message, x)? {
        Some(text) => show_behind_name(guard, &text),
        None => Ok(()),
    }
}

/// The player sees one message of an object, and the others where it is another, each where the object has it.
#[tactic(auto, unfolding(spec_commands::specs::Going::both_shown, spec_live::specs::Lives::change_followed))]
pub fn show_both(
    guard: &mut Guard,
    d: u32,
    typed: &Typed,
    mine: Message,
    theirs: Message,
    x: Dbref,
) -> Result<(), NoMemory>
    ensures { Did (both_shown d guard.old.actor typed.now mine theirs x) guard.old guard.new result }
{
    show_message(guard, d, typed, mine, x)?;
    message_to_others(guard, typed, theirs, x)
}
