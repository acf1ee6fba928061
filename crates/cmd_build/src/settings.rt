// Flags, levels and properties.
ghost use Rattle.std.specs.Prelude.{◌≡◌};
ghost use Rattle.std.specs.List.{list_any};
ghost use Rattle.muck_prop.specs.declared.value.PropValue.TheVariants.{Text};
ghost use Rattle.muck_prop.specs.Paths.{path_fault, segments_of};
ghost use Rattle.spec_rights.specs.declared.act.Act.{Act};
ghost use Rattle.spec_rights.specs.Changing.{property_stored};
ghost use Rattle.spec_commands.specs.Replies.{property_reply};
ghost use Rattle.spec_commands.specs.Building.{is_still_there, done_where, change_by_leave};
ghost use Rattle.spec_commands.specs.Settings.{setting_asked, has_colon, word_set, property_set, assigned};
ghost use Rattle.muck_perm.specs.inner.Guards.{Did, IsLeave};

use cmd_common::{Write, cant_be_done, refuse, try_write};
use muck_model::{Dbref, Line, NoMemory};
use muck_perm::{Guard, Pass, verdict};
use muck_prop::{Path, PropFault, PropValue, read_path};
use spec_commands::{cut_at, setting_asked};
use spec_live::DbFault;
use spec_rights::Act;

// Stores a text by leave, and the connection is told so; or that it can't be done.
#[tactic(auto, unfolding(spec_commands::specs::Building::done_where, spec_commands::specs::Finding::where_so, spec_commands::specs::Replies::property_reply, spec_live::specs::Lives::reading, spec_live::specs::Lives::either, spec_live::specs::Lives::change_followed))]
fn store_by_leave(
    guard: &mut Guard,
    pass: Pass,
    d: u32,
    x: Dbref,
    path: Path,
    value: Line,
) -> Result<(), NoMemory>
    requires { IsLeave pass (Act.Write x path) guard.old }
    ensures { Did (done_where d (is_still_there x) (property_stored x path (Text value)) property_reply) guard.old guard.new result }
{
    match guard.store(pass, x, path, PropValue::Text(value)) {
        Ok(()) => guard.tell(d, b"Property set."),
        Err(DbFault::NoMemory) => Err(NoMemory),
        Err(_) => cant_be_done(guard, d),
    }
}

// Stores a text at a path, where neither a rule nor the world denies it; the empty text removes what is there.
#[tactic(auto, unfolding(spec_commands::specs::Building::change_by_leave, spec_rights::specs::Asking::asked))]
fn store(guard: &mut Guard, d: u32, x: Dbref, path: Path, value: Line) -> Result<(), NoMemory>
    ensures { Did (change_by_leave d guard.old.actor (Act.Write x path) (is_still_there x) (property_stored x path (Text value)) property_reply) guard.old guard.new result }
{
    let actor = guard.actor();
    let act = Act::Write {
        object: x,
        path: path.copy(guard.alloc())?,
    };
    match verdict(guard.db(), &actor, &act) {
        Err(denial) => refuse(guard, d, denial),
        Ok(pass) => store_by_leave(guard, pass, d, x, path, value),
    }
}

// Sets a property, at the path that a text writes.
fn set_property(
    guard: &mut Guard,
    d: u32,
    x: Dbref,
    path: &Line,
    value: Line,
) -> Result<(), NoMemory>
    ensures { Did (property_set d guard.old.actor x (segments_of path.now) value (path_fault path.now)) guard.old guard.new result }
{
    match read_path(guard.alloc(), path) {
        Ok(path) => store(guard, d, x, path, value),
        Err(PropFault::NoMemory) => Err(NoMemory),
        Err(_) => cant_be_done(guard, d),
    }
}

// Sets the flag or the level that a word asks for.
#[tactic(auto, unfolding(spec_commands::specs::Replies::flag_reply))]
fn set_word(guard: &mut Guard, d: u32, x: Dbref, word: &[u8]) -> Result<(), NoMemory>
    ensures { Did (word_set d guard.old.actor x (setting_asked word.now)) guard.old guard.new result }
{
    match setting_asked(word) {
        Some(setting) => try_write(guard, d, Write::Set(x, setting), b"Flag set."),
        None => cant_be_done(guard, d),
    }
}

// Whether a text has a colon.
fn has_colon(text: &[u8]) -> bool
    ensures { result ≡ has_colon text.now }
{
    text.iter().any(|b| *b == b':')
}

/// `@set`: with a colon a property of an object, and else a flag or a level.
#[tactic(auto, using(cmd_common::proofs::Texts::parts_are_texts), unfolding(spec_commands::specs::Settings::assigned))]
pub fn assign(guard: &mut Guard, d: u32, x: Dbref, text: &Line) -> Result<(), NoMemory>
    ensures { Did (assigned d guard.old.actor x text.now) guard.old guard.new result }
{
    let bytes = text.as_slice();
    if !has_colon(bytes) {
        return set_word(guard, d, x, bytes);
    }
    let (path, value) = cut_at(bytes, b':');
    let path = Line::of_text(guard.alloc(), path)?;
    let value = Line::of_text(guard.alloc(), value)?;
    set_property(guard, d, x, &path, value)
}
