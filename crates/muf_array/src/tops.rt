// What stands at the top of the stack.
ghost use Rattle.std.specs.Prelude.{◌≡◌, ◌<◌, ◌≤◌, Some, length, slice_get, option_map, option_copied, IfOk};
ghost use Rattle.muf_model.specs.inner.View.{view};
ghost use Rattle.muf_frame.specs.inner.Shown.{Shown, flat};
ghost use Rattle.muf_array.specs.inner.Shapes.{key_in};

use muck_model::NoMemory;
use muf_frame::Frame;
use muf_model::{MapKey, Value};

/// The item at a depth; `None` exactly where none is there.
#[tactic(auto, using(muf_frame::proofs::Data::list_steps))]
pub(crate) fn item_at(frame: &Frame, depth: usize) -> Option<&Value>
    ensures { option_map view (option_copied result) ≡ slice_get (flat frame.now).stack depth }
{
    frame.peek(depth)
}

/// The key at a depth; `None` exactly where another item or none is there.
#[tactic(auto, using(crate::proofs::Items::key_steps))]
pub(crate) fn key_at(frame: &Frame, depth: usize) -> Result<Option<MapKey>, NoMemory>
    ensures { IfOk result (λ key. key ≡ key_in depth (flat frame.now).stack) }
{
    match item_at(frame, depth) {
        Some(item) => item.to_key(),
        None => Ok(None),
    }
}

/// A copy of the item at a depth, which is there.
#[tactic(auto, using(crate::proofs::Items::key_steps))]
pub(crate) fn copy_at(frame: &Frame, depth: usize) -> Result<Value, NoMemory>
    requires { depth < length frame.now.stack }
    ensures { IfOk result (λ v. slice_get (flat frame.now).stack depth ≡ Some (view v)) }
{
    match item_at(frame, depth) {
        Some(item) => item.copy(),
        None => unreachable!(),
    }
}
