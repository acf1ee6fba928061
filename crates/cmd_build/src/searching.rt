// Looking for objects by a part of their names.
ghost use Rattle.std.specs.Prelude.{◌≡◌, ◌&&◌, map, IfOk, codes, decimal};
ghost use Rattle.std.specs.Char.{to_ascii_lowercase};
ghost use Rattle.spec_live.specs.Objects.{same};
ghost use Rattle.spec_live.specs.Lives.{tell};
ghost use Rattle.spec_commands.specs.Building.{text_begins, holds_name, owned_named, find_shown};
ghost use Rattle.spec_commands.specs.Replies.{found_count};
ghost use Rattle.muck_perm.specs.inner.Guards.{Did};
ghost use Rattle.cmd_build.specs.inner.Owned.{is_wanted, wanted_at};

use cmd_common::list;
use muck_db::Db;
use muck_model::{Dbref, Line, NoMemory};
use muck_perm::Guard;
use spec_live::Object;
use std::alloc::Global;

// Whether a text begins with this, without regard to case.
fn begins(part: &[u8], text: &[u8]) -> bool
    ensures { result ≡ text_begins (map to_ascii_lowercase part.now) (map to_ascii_lowercase text.now) }
{
    let mut wanted = part;
    let mut rest = text;
    while let Some((b, more)) = wanted.split_first() {
        let Some((c, others)) = rest.split_first() else {
            return false;
        };
        if b.to_ascii_lowercase() != c.to_ascii_lowercase() {
            return false;
        }
        wanted = more;
        rest = others;
    }
    true
}

// Whether a text stands somewhere in a name, without regard to case.
#[tactic(auto, unfolding(spec_commands::specs::Building::holds_name))]
fn holds_name(part: &[u8], name: &[u8]) -> bool
    ensures { result ≡ holds_name part.now name.now }
{
    let mut rest = name;
    while let Some((_, others)) = rest.split_first() {
        if begins(part, rest) {
            return true;
        }
        rest = others;
    }
    begins(part, rest)
}

// Whether an object is the user's, and its name holds the text.
fn is_wanted(user: Dbref, part: &[u8], object: &Object) -> bool
    ensures { result ≡ is_wanted user part.now object.now }
{
    object.owner() == user && holds_name(part, object.name().as_slice())
}

// Whether such an object is there.
fn wanted_at(user: Dbref, part: &[u8], x: Dbref, db: &Db) -> bool
    ensures { result ≡ wanted_at user part.now x db.now }
{
    match db.get(x) {
        Some(object) => is_wanted(user, part, object),
        None => false,
    }
}

// The user's objects whose name holds the text, by number. No list of a user's objects is kept: by its meaning this is a
// search of the whole world, and it looks at every number once.
#[tactic(auto, using(crate::proofs::Owned::found_here, crate::proofs::Owned::not_here))]
fn owned_named(alloc: Global, db: &Db, user: Dbref, part: &[u8]) -> Result<Vec<Dbref>, NoMemory>
    ensures { IfOk result (λ xs. xs.items ≡ owned_named user part.now 0 db.now) }
{
    let mut xs = Vec::new(alloc);
    for n in 0..db.count() {
        let x = Dbref(n as i32);
        if wanted_at(user, part, x, db) {
            xs.push(x)?;
        }
    }
    Ok(xs)
}

// Tells the connection how many objects were found.
#[tactic(auto, unfolding(spec_commands::specs::Replies::found_count))]
fn found_count(guard: &mut Guard, d: u32, count: usize) -> Result<(), NoMemory>
    ensures { Did (tell d (found_count count)) guard.old guard.new result }
{
    let text = format!(in guard.alloc(); "{count} found.")?;
    guard.tell(d, text.as_bytes())?;
    Ok(())
}

/// `@find`: shows the user's objects whose name holds a text, by number, and then how many they are.
#[tactic(auto, unfolding(spec_commands::specs::Building::find_shown, spec_live::specs::Lives::reading, spec_live::specs::Lives::change_followed))]
pub fn find(guard: &mut Guard, d: u32, part: &Line) -> Result<(), NoMemory>
    ensures { Did (find_shown d guard.old.actor part.now) guard.old guard.new result }
{
    let actor = guard.actor();
    let xs = owned_named(guard.alloc(), guard.db(), actor.user, part.as_slice())?;
    list(guard, d, actor.player, &xs)?;
    found_count(guard, d, xs.len())?;
    Ok(())
}
