// The keys in texts of locks.
ghost use Rattle.std.specs.Prelude.{◌≡◌, ◌≤◌, ℕ, length, Bool, List, Option, None, IfOk, take, drop};
ghost use Rattle.std.specs.List.{position, position_or_len};
ghost use Rattle.muck_model.specs.Bytes.{text_fault};
ghost use Rattle.muck_model.specs.declared.dbref.Dbref.{Dbref};
ghost use Rattle.muck_lock.specs.Naming.{naming};
ghost use Rattle.muck_lock.specs.Grammar.{ends_key, lock_key_of, object_key, property_key};

use crate::path::is_path;
use muck_model::{Dbref, Line, Lock, NoMemory, byte_at};
use std::alloc::Global;

/// What names in a text of a lock stand for. No call takes memory.
pub trait Finder {
    ghost found: { Self → List ℕ → Option Dbref };

    ghost programs: { Self → Dbref → Bool };

    /// The object of that name, which may be `*` and the name of a player.
    fn find(&self, name: &Line) -> Option<Dbref>
        ensures { result ≡ found self.now name.now };

    /// Whether the object is a program.
    fn is_program(&self, d: Dbref) -> bool
        ensures { result ≡ programs self.now d };
}

fn first_end(text: &[u8]) -> Option<usize>
    ensures { result ≡ position ends_key text.now }
{
    text.iter()
        .position(|b| *b == b'&' || *b == b'|' || *b == b')')
}

// Where the key that begins the text ends.
#[tactic(auto, using(muck_model::proofs::Positions::positions))]
pub fn key_end(text: &[u8]) -> usize
    ensures place { result ≡ position_or_len ends_key text.now }
    ensures within { result ≤ length text.now }
{
    first_end(text).unwrap_or(text.len())
}

// An object as a key, where it is no program.
fn object_key<F: Finder>(finder: &F, d: Option<Dbref>) -> Option<Lock>
    ensures { result ≡ object_key (naming (F.found finder.now) (F.programs finder.now)) d }
{
    let d = d?;
    if finder.is_program(d) {
        return None;
    }
    Some(Lock::Object(d))
}

fn property_key(alloc: Global, path: &[u8], value: &[u8]) -> Result<Option<Lock>, NoMemory>
    requires path { text_fault path.now ≡ None }
    requires value { text_fault value.now ≡ None }
    ensures { IfOk result (λ lock. lock ≡ property_key path.now value.now) }
{
    if !is_path(path) {
        return Ok(None);
    }
    let path = Line::of_text(alloc, path)?;
    let value = Line::of_text(alloc, value)?;
    Ok(Some(Lock::Prop { path, value }))
}

// The object of that name as a key.
fn name_key<F: Finder>(alloc: Global, finder: &F, name: &[u8]) -> Result<Option<Lock>, NoMemory>
    requires { text_fault name.now ≡ None }
    ensures { IfOk result (λ lock. lock ≡ object_key (naming (F.found finder.now) (F.programs finder.now)) (F.found finder.now name.now)) }
{
    let name = Line::of_text(alloc, name)?;
    Ok(object_key(finder, finder.find(&name)))
}

// The key that the bytes write; `None` exactly where they write none.
#[tactic(auto, using(crate::proofs::Places::parts_of_texts))]
pub fn read_key<F: Finder>(alloc: Global, finder: &F, key: &[u8]) -> Result<Option<Lock>, NoMemory>
    requires { text_fault key.now ≡ None }
    ensures { IfOk result (λ lock. lock ≡ lock_key_of (naming (F.found finder.now) (F.programs finder.now)) key.now) }
{
    match key {
        [] => Ok(None),
        [b'#', ..] => Ok(object_key(finder, Dbref::read(key))),
        [b'*', ..] => name_key(alloc, finder, key),
        _ => match byte_at(key, b':') {
            None => name_key(alloc, finder, key),
            Some(at) => property_key(alloc, key.split_at(at).0, key.split_at(at + 1).1),
        },
    }
}
