// What is seen of an object.
ghost use Rattle.std.specs.Prelude.{◌≡◌, ◌++◌, ◌∷◌, None, IfOk, OnOk, map};
ghost use Rattle.std.specs.Option.{option_copied};
ghost use Rattle.muck_model.specs.Bytes.{text_fault};
ghost use Rattle.spec_live.specs.Worth.{message_at, lock_text};
ghost use Rattle.spec_rights.specs.Levels.{owner_at};
ghost use Rattle.muck_looking.specs.Looks.{line_shortened, form_line, entry_name, description_path, if_any, under_head, open_in, object_looked_at, object_examined};
ghost use Rattle.spec_commands.specs.Replies.{owner_line, lock_line};

use crate::lines::{form, headed};
use muck_db::{Db, KnownPaths};
use muck_model::{Dbref, Line, LineList, NoMemory};
use muck_perm::{flag_at, lock_text, message_at, owner_at};
use spec_live::{DARK, Message};
use std::alloc::Global;

// The description of an object.
fn description<'a>(db: &'a Db, paths: &KnownPaths, d: Dbref) -> Option<&'a Line>
    ensures { option_copied result ≡ message_at description_path d db.now }
{
    message_at(db, d, paths.message(Message::Describe))
}

// Adds its description, where it has one.
fn add_description(alloc: Global, db: &Db, d: Dbref, lines: &mut Vec<Line>) -> Result<(), NoMemory>
    ensures { OnOk result (lines.new.items ≡ lines.old.items ++ if_any (message_at description_path d db.now)) }
{
    if let Some(text) = description(db, db.paths(), d) {
        lines.push(text.copy(alloc)?)?;
    }
    Ok(())
}

// What it holds that isn't hidden.
#[tactic(auto, unfolding(crate::specs::Looks::open_in))]
fn open_in(alloc: Global, db: &Db, d: Dbref) -> Result<Vec<Dbref>, NoMemory>
    ensures { IfOk result (λ xs. xs.items ≡ open_in db.now d) }
{
    let open = db
        .contents(d)
        .filter(|x| !flag_at(DARK, db, *x))
        .collect(alloc)?;
    Ok(open)
}

// Adds the long forms of these.
fn add_forms(alloc: Global, db: &Db, xs: &[Dbref], lines: &mut Vec<Line>) -> Result<(), NoMemory>
    ensures { OnOk result (lines.new.items ≡ lines.old.items ++ map (form_line db.now) xs.now) }
{
    for x in xs {
        lines.push(form(alloc, db, *x)?)?;
    }
    Ok(())
}

// Adds what it holds, under a head.
fn add_contents(alloc: Global, db: &Db, d: Dbref, lines: &mut Vec<Line>) -> Result<(), NoMemory>
    ensures { OnOk result (lines.new.items ≡ lines.old.items ++ under_head (map (form_line db.now) (open_in db.now d))) }
{
    let open = open_in(alloc, db, d)?;
    let shown = open.as_slice();
    if shown.is_empty() {
        return Ok(());
    }
    let head = Line::of_text(alloc, b"Contents:")?;
    lines.push(head)?;
    add_forms(alloc, db, shown, lines)?;
    Ok(())
}

/// What is seen of an object: its long form, its description as it is kept, where that is a text, and under `Contents:` the long forms of what it holds without the
/// flag D, where there is any. None where it isn't there or is garbage.
#[tactic(auto, unfolding(crate::specs::Looks::object_looked_at))]
pub fn look(alloc: Global, db: &Db, d: Dbref) -> Result<Option<LineList>, NoMemory>
    ensures { IfOk result (λ lines. lines ≡ object_looked_at d db.now) }
{
    if db.get(d).is_none() {
        return Ok(None);
    }
    let mut lines = Vec::new(alloc);
    lines.push(form(alloc, db, d)?)?;
    add_description(alloc, db, d, &mut lines)?;
    add_contents(alloc, db, d, &mut lines)?;
    Ok(Some(LineList::of(lines)))
}

// The name of an object; what isn't there has none.
fn name_of(db: &Db, d: Dbref) -> &[u8]
    ensures name { result.now ≡ entry_name db.now d }
    ensures text { text_fault result.now ≡ None }
{
    match db.get(d) {
        Some(object) => object.name().as_slice(),
        None => b"",
    }
}

// The line of its owner.
fn owner_line(alloc: Global, db: &Db, d: Dbref) -> Result<Line, NoMemory>
    ensures { IfOk result (λ line. line ≡ line_shortened (owner_line (entry_name db.now (owner_at db.now d)))) }
{
    let owner = owner_at(db, d);
    headed(alloc, b"Owner: ", name_of(db, owner))
}

// The line of its lock.
fn lock_line(alloc: Global, db: &Db, d: Dbref) -> Result<Line, NoMemory>
    ensures { IfOk result (λ line. line ≡ line_shortened (lock_line (lock_text d db.now))) }
{
    let lock = lock_text(alloc, db, d)?;
    headed(alloc, b"Lock: ", lock.as_slice())
}

/// What is seen of an object by who controls it: its long form, its owner and its lock. None where it isn't there or is garbage.
#[tactic(auto, unfolding(crate::specs::Looks::object_examined))]
pub fn examine(alloc: Global, db: &Db, d: Dbref) -> Result<Option<LineList>, NoMemory>
    ensures { IfOk result (λ lines. lines ≡ object_examined d db.now) }
{
    if db.get(d).is_none() {
        return Ok(None);
    }
    let mut lines = Vec::new(alloc);
    lines.push(form(alloc, db, d)?)?;
    lines.push(owner_line(alloc, db, d)?)?;
    lines.push(lock_line(alloc, db, d)?)?;
    Ok(Some(LineList::of(lines)))
}
