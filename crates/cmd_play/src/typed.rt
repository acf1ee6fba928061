// What was typed, for the messages that are shown.
ghost use Rattle.std.specs.Prelude.{◌≡◌, [], IfOk, None, drop, take};
ghost use Rattle.muck_model.specs.Bytes.{text_fault};
ghost use Rattle.spec_live.specs.Lives.{name_at};
ghost use Rattle.spec_commands.specs.Going.{exit_typed};
ghost use Rattle.muck_perm.specs.inner.Guards.{world_of};

use muck_match::ExitHit;
use muck_model::{Dbref, Line, NoMemory};
use muck_perm::Guard;
use spec_commands::Typed;
use std::alloc::Global;

/// A word that was typed, and what stands behind it.
pub fn typed_of(alloc: Global, word: &[u8], rest: &[u8]) -> Result<Typed, NoMemory>
    requires word { text_fault word.now ≡ None }
    requires rest { text_fault rest.now ≡ None }
    ensures { IfOk result (λ typed. typed ≡ record { word = word.now; rest = rest.now }) }
{
    Ok(Typed {
        word: Line::of_text(alloc, word)?,
        rest: Line::of_text(alloc, rest)?,
    })
}

/// A word that stands alone.
pub fn word_typed(alloc: Global, word: &[u8]) -> Result<Typed, NoMemory>
    requires { text_fault word.now ≡ None }
    ensures { IfOk result (λ typed. typed ≡ record { word = word.now; rest = [] }) }
{
    typed_of(alloc, word, b"")
}

// What stands behind that many bytes.
#[tactic(auto, using(std::proofs::lemmas::List::drop_all))]
fn behind(bytes: &[u8], at: usize) -> &[u8]
    ensures { result.now ≡ drop at bytes.now }
{
    if at < bytes.len() {
        return bytes.split_at(at).1;
    }
    b""
}

// That many bytes from the start.
#[tactic(auto, using(std::proofs::lemmas::List::take_all))]
fn front(bytes: &[u8], count: usize) -> &[u8]
    ensures { result.now ≡ take count bytes.now }
{
    if count < bytes.len() {
        return bytes.split_at(count).0;
    }
    bytes
}

/// The name of an object; what isn't there has none.
pub fn name_of<'a>(guard: &'a Guard<'_>, x: Dbref) -> &'a [u8]
    ensures name { result.now ≡ name_at x (world_of guard.now) }
    ensures text { text_fault result.now ≡ None }
{
    match guard.db().get(x) {
        Some(object) => object.name().as_slice(),
        None => b"",
    }
}

/// The alias of an exit that takes a line, as its name spells it, and what stands behind it.
#[tactic(auto, using(crate::proofs::Parts::parts))]
pub fn exit_typed(guard: &Guard, hit: &ExitHit, line: &Line) -> Result<Typed, NoMemory>
    ensures { IfOk result (λ typed. typed ≡ exit_typed hit.now line.now (world_of guard.now)) }
{
    let alias = behind(front(name_of(guard, hit.exit), hit.alias.1), hit.alias.0);
    typed_of(guard.alloc(), alias, behind(line.as_slice(), hit.rest))
}
