// Reading a line: its command by a table, and the arguments of that command.
ghost use Rattle.std.specs.Prelude.{◌≡◌, ◌&&◌, ◌||◌, map, IfOk, IfSome};
ghost use Rattle.spec_commands.specs.Reading.{looked_up, object_sought, part_meant, is_fit, are_fit, with_fit, with_parts, with_arguments};
ghost use Rattle.spec_commands.specs.Programming.{command_over};
ghost use Rattle.spec_commands.specs.Finding.{finding, finding_player};
ghost use Rattle.muck_perm.specs.inner.Guards.{world_of};
ghost use Rattle.cmd_common.specs.inner.Plays.{FindsFor};
ghost use Rattle.cmd_common.specs.inner.Takes.{word_row, Takes, IsJudged, AreJudged};

use crate::finding::{is_object, is_program, tell_not_known, tell_not_understood};
use crate::names::is_name;
use crate::parts::{Parts, parts_in};
use crate::replies::{bad_name, cant_be_done, incomplete};
use muck_match::Found;
use muck_model::{Dbref, Line, NoMemory};
use muck_perm::Guard;
use spec_commands::{Argument, Arguments, Shape, Want, alike};

const NOTHING: Dbref = Dbref(-1);

/// The command of a word in a table, in any case of letters; `None` exactly where the table has no such word.
pub fn looked_up<C: Copy>(rows: &[(&'static [u8], C)], word: &[u8]) -> Option<C>
    ensures { result ≡ looked_up (map word_row rows.now) word.now }
{
    for row in rows {
        if alike(word, row.0) {
            return Some(row.1);
        }
    }
    None
}

// What the player means by a part; `None` exactly where the connection was told that it is nothing.
#[tactic(auto, unfolding(spec_commands::specs::Reading::object_sought, spec_commands::specs::Finding::finding, spec_commands::specs::Going::ended, spec_live::specs::Lives::reading, spec_live::specs::Lives::either))]
fn seek(guard: &mut Guard, d: u32, text: &Line) -> Result<Option<Dbref>, NoMemory>
    ensures { FindsFor (object_sought d guard.old.actor text.now) guard.old guard.new result }
{
    if text.as_slice().is_empty() {
        return Ok(Some(NOTHING));
    }
    match guard.db().find(guard.actor().player, text) {
        Found::One(x) => return Ok(Some(x)),
        Found::None => tell_not_understood(guard, d, text.as_slice())?,
        Found::Many => tell_not_known(guard, d, text.as_slice())?,
    }
    Ok(None)
}

// The player of a name; `None` exactly where the connection was told that there is none.
#[tactic(auto, unfolding(spec_commands::specs::Finding::finding_player, spec_commands::specs::Going::ended, spec_live::specs::Lives::reading))]
fn seek_player(guard: &mut Guard, d: u32, name: &Line) -> Result<Option<Dbref>, NoMemory>
    ensures { FindsFor (finding_player (command_over d) name.now) guard.old guard.new result }
{
    if let Some(x) = guard.db().player_named(name.as_slice()) {
        return Ok(Some(x));
    }
    tell_not_understood(guard, d, name.as_slice())?;
    Ok(None)
}

// A part as it is wanted; `None` exactly where the connection was told why it isn't.
#[tactic(auto, unfolding(spec_commands::specs::Reading::name_judged, spec_commands::specs::Going::ended, spec_live::specs::Lives::either))]
fn mean(guard: &mut Guard, d: u32, want: Want, text: &Line) -> Result<Option<Dbref>, NoMemory>
    ensures means { FindsFor (part_meant d guard.old.actor want text.now) guard.old guard.new result }
    ensures judged { IfOk result (λ found. IfSome found (λ x. IsJudged want text.now)) }
{
    match want {
        Want::Nothing | Want::Text => Ok(Some(NOTHING)),
        Want::Found => seek(guard, d, text),
        Want::Object => seek(guard, d, text),
        Want::Program => seek(guard, d, text),
        Want::Player => seek_player(guard, d, text),
        Want::NewName => {
            if is_name(text.as_slice()) {
                return Ok(Some(NOTHING));
            }
            bad_name(guard, d)?;
            Ok(None)
        }
    }
}

// Whether what was found is of the kind that is wanted.
fn is_fit(guard: &Guard, want: Want, argument: &Argument) -> bool
    ensures { result ≡ is_fit want argument.now (world_of guard.now) }
{
    match want {
        Want::Object => argument.text.as_slice().is_empty() || is_object(guard, argument.object),
        Want::Program => is_program(guard, argument.object),
        Want::Nothing | Want::Text | Want::NewName | Want::Found | Want::Player => true,
    }
}

fn are_fit(guard: &Guard, shape: Shape, args: &Arguments) -> bool
    ensures { result ≡ are_fit shape args.now (world_of guard.now) }
{
    is_fit(guard, shape.first, &args.first) && is_fit(guard, shape.second, &args.second)
}

// The arguments, where what was found is of the kinds that are wanted; else the connection was told that it isn't.
#[tactic(auto, unfolding(spec_commands::specs::Reading::with_fit, spec_commands::specs::Finding::where_so, spec_commands::specs::Going::ended, spec_live::specs::Lives::reading, spec_live::specs::Lives::either))]
fn fit(
    guard: &mut Guard,
    d: u32,
    shape: Shape,
    args: Arguments,
) -> Result<Option<Arguments>, NoMemory>
    ensures takes { Takes (with_fit d shape args) guard.old guard.new result }
    ensures same { IfOk result (λ found. IfSome found (λ got. got ≡ args)) }
{
    if are_fit(guard, shape, &args) {
        return Ok(Some(args));
    }
    cant_be_done(guard, d)?;
    Ok(None)
}

// The parts of a text as they are wanted; `None` exactly where the connection was told why they aren't.
#[tactic(auto, using(crate::proofs::Taking::takes), unfolding(spec_commands::specs::Reading::with_parts))]
fn take(
    guard: &mut Guard,
    d: u32,
    shape: Shape,
    parts: Parts,
) -> Result<Option<Arguments>, NoMemory>
    ensures takes { Takes (with_parts d guard.old.actor shape parts.left parts.right) guard.old guard.new result }
    ensures judged { IfOk result (λ found. IfSome found (AreJudged shape)) }
{
    let Some(x) = mean(guard, d, shape.first, &parts.left)? else {
        return Ok(None);
    };
    let Some(y) = mean(guard, d, shape.second, &parts.right)? else {
        return Ok(None);
    };
    let first = Argument {
        text: parts.left,
        object: x,
    };
    let second = Argument {
        text: parts.right,
        object: y,
    };
    fit(guard, d, shape, Arguments { first, second })
}

/// The arguments of a command, out of the text behind its word. `None` exactly where a part is missing, a name is none or
/// names nothing or several, or what it names isn't of the kind that is wanted; then the connection was told.
#[tactic(auto, unfolding(spec_commands::specs::Reading::with_arguments, spec_commands::specs::Going::ended, spec_live::specs::Lives::either))]
pub fn arguments(
    guard: &mut Guard,
    d: u32,
    word: &[u8],
    shape: Shape,
    text: &Line,
) -> Result<Option<Arguments>, NoMemory>
    ensures takes { Takes (with_arguments d guard.old.actor word.now shape text.now) guard.old guard.new result }
    ensures judged { IfOk result (λ found. IfSome found (AreJudged shape)) }
{
    match parts_in(guard.alloc(), shape.form, text)? {
        Some(parts) => take(guard, d, shape, parts),
        None => {
            incomplete(guard, d, word)?;
            Ok(None)
        }
    }
}
