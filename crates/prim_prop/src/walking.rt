// NEXTPROP: the next child that may be read.
ghost use Rattle.std.specs.Prelude.{◌≡◌, [], IfOk, None, take};
ghost use Rattle.std.specs.List.{list_all};
ghost use Rattle.std.specs.Option.{option_map_or};
ghost use Rattle.muck_model.specs.Bytes.{text_fault};
ghost use Rattle.muck_prop.specs.Paths.{is_slash, path_text};
ghost use Rattle.muck_prop.specs.Store.{path_or_top as path_or_root};
ghost use Rattle.muf_model.specs.Datum.{text};
ghost use Rattle.muf_model.specs.inner.View.{view};
ghost use Rattle.muf_frame.specs.inner.Shown.{Shown, flat};
ghost use Rattle.muck_perm.specs.inner.Guards.{world_of};
ghost use Rattle.spec_prims.specs.PropRows.{directory_part, may_read, next_read, path_or_top, properties_walked};
ghost use Rattle.prim_common.specs.inner.Applied.{Makes};
ghost use Rattle.prim_prop.specs.inner.Walks.{Starts, begun};

use crate::asked::{named, path_of};
use crate::looking::text_item;
use muck_model::{Dbref, Line, NoMemory};
use muck_perm::{Guard, verdict};
use muck_prop::{Path, PropFault, read_path};
use muf_frame::{Frame, PrimFault};
use muf_model::{MufFault, Text, Value};
use prim_common::Made;
use spec_rights::Act;
use std::alloc::Global;

/// Where a walk begins: in that directory, behind that child. `None` is the top, and before the first child.
#[derive(Drop)]
pub struct Start {
    pub directory: Option<Path>,
    pub after: Option<Path>,
}

// A text up to its last slash.
fn front(text: &[u8]) -> &[u8]
    ensures { result.now ≡ directory_part text.now }
{
    let mut end = text.len();
    while end > 0 && text[end - 1] != b'/' {
        end -= 1;
    }
    &text[..end]
}

// Whether it is nothing, or slashes alone.
fn is_slashes(text: &[u8]) -> bool
    ensures { result ≡ list_all is_slash text.now }
{
    text.iter().all(|b| *b == b'/')
}

// The path that a text writes, the top where it writes none.
fn path_or_top(alloc: Global, text: &[u8]) -> Result<Option<Path>, NoMemory>
    requires { text_fault text.now ≡ None }
    ensures { IfOk result (λ path. path_or_root path ≡ path_or_top text.now) }
{
    let line = Line::of_text(alloc, text)?;
    match read_path(alloc, &line) {
        Ok(path) => Ok(Some(path)),
        Err(PropFault::NoMemory) => Err(NoMemory),
        Err(_) => Ok(None),
    }
}

// Where the text says that it begins.
#[tactic(auto, using(crate::proofs::Fronts::front_is_text))]
fn start_of(alloc: Global, text: &Text) -> Result<Start, PrimFault>
    ensures { Starts text.now result }
{
    let bytes = text.as_slice();
    if is_slashes(bytes) {
        return Ok(Start {
            directory: None,
            after: None,
        });
    }
    let path = path_of(alloc, text)?;
    let front = front(bytes);
    if front.len() == bytes.len() {
        return Ok(Start {
            directory: Some(path),
            after: None,
        });
    }
    let directory = path_or_top(alloc, front)?;
    Ok(Start {
        directory,
        after: Some(path),
    })
}

// Whether the actor may read a property.
fn may_read(guard: &Guard, object: Dbref, path: &Path) -> Result<bool, NoMemory>
    ensures { IfOk result (λ yes. yes ≡ may_read guard.now.actor object (world_of guard.now) path.now) }
{
    let path = path.copy(guard.alloc())?;
    match verdict(guard.db(), &guard.actor(), &Act::Read { object, path }) {
        Ok(_) => Ok(true),
        Err(_) => Ok(false),
    }
}

// The next child that the actor may read.
#[tactic(auto, using(crate::proofs::Walks::walk_steps))]
fn next_read(guard: &Guard, object: Dbref, start: Start) -> Result<Option<Path>, NoMemory>
    ensures { IfOk result (λ path. path ≡ next_read guard.now.actor object (begun start) (world_of guard.now)) }
{
    let Some(held) = guard.db().get(object) else {
        return Ok(None);
    };
    let Start {
        directory,
        mut after,
    } = start;
    'search: loop {
        let next = held
            .props()
            .next(guard.alloc(), directory.as_ref(), after.as_ref())?;
        let Some(path) = next else {
            return Ok(None);
        };
        if may_read(guard, object, &path)? {
            return Ok(Some(path));
        }
        after = Some(path);
    }
}

// Its text, which is empty at the end.
fn next_name(guard: &Guard, object: Dbref, start: Start) -> Result<Value, NoMemory>
    ensures { IfOk result (λ v. view v ≡ text (option_map_or path_text (next_read guard.now.actor object (begun start) (world_of guard.now)) [])) }
{
    let alloc = guard.alloc();
    match next_read(guard, object, start)? {
        Some(path) => text_item(alloc, path.text(alloc)?),
        None => text_item(alloc, Line::of_text(alloc, b"")?),
    }
}

/// NEXTPROP.
pub(crate) fn walk(guard: &Guard, frame: &Frame) -> Result<Made, PrimFault>
    ensures { Makes (properties_walked guard.now.actor (take 2 (flat frame.now).stack) (world_of guard.now)) guard.now guard.now result }
{
    let Some((object, text)) = named(frame, 0) else {
        return Err(PrimFault::Fault(MufFault::BadType));
    };
    let start = start_of(guard.alloc(), text)?;
    let name = next_name(guard, object, start)?;
    Ok(Made::One(name))
}
