// `}`.
ghost use Rattle.std.specs.Prelude.{◌≡◌, ◌+◌, ◌<◌, ◌∷◌, ◌++◌, ℕ, pos, length, take, drop, slice_get, IfSome};
ghost use Rattle.std.specs.List.{position};
ghost use Rattle.muf_model.specs.Datum.{int};
ghost use Rattle.muf_model.specs.declared.prims.Primitive.TheVariants.{CloseMark};
ghost use Rattle.muf_model.specs.StackRows.{is_mark, above_locked};
ghost use Rattle.muf_model.specs.inner.View.{view};
ghost use Rattle.muf_frame.specs.inner.Shown.{Shown, flat, locked_by};
ghost use Rattle.muf_frame.specs.inner.Answers.{IsRow};
ghost use Rattle.prim_stack.specs.inner.Does.{mark_in};

use muf_frame::Frame;
use muf_model::{MufFault, Value};

fn is_mark(value: &Value) -> bool
    ensures { result ≡ is_mark (view value.now) }
{
    matches!(value, Value::Mark)
}

// Whether a mark stands at this depth below the top.
#[tactic(auto, using(crate::proofs::Tops::mark_steps))]
fn is_mark_at(frame: &Frame, depth: usize) -> bool
    requires { depth < length frame.now.stack }
    ensures { result ≡ mark_in (slice_get (flat frame.now).stack depth) }
{
    match frame.peek(depth) {
        Some(value) => is_mark(value),
        None => false,
    }
}

// Where the nearest mark above the locked part stands.
#[tactic(auto, using(crate::proofs::Tops::mark_steps))]
fn nearest_mark(frame: &Frame) -> Option<usize>
    ensures value { result ≡ position is_mark (above_locked (locked_by (flat frame.now).marks) (flat frame.now).stack) }
    ensures there { IfSome result (λ n. n < length frame.now.stack) }
    ensures small { IfSome result (λ n. n < 1024) }
{
    let depth = frame.depth();
    let mut at = 0;
    while at < depth {
        if is_mark_at(frame, at) {
            return Some(at);
        }
        at += 1;
    }
    None
}

// The item below n others gives way to their count, on the top.
#[tactic(auto, using(crate::proofs::Tops::close_steps))]
fn count_down_to(frame: &mut Frame, n: usize)
    requires there { n < length frame.old.stack }
    requires small { n < 1024 }
    ensures { flat frame.new ≡ record (flat frame.old) { stack = int (pos n) ∷ (take n (flat frame.old).stack ++ drop (n + 1) (flat frame.old).stack) } }
{
    let _mark = frame.take_item(n);
    frame.push_item(Value::Int(n as i32));
}

/// `}`.
pub(crate) fn close_mark(frame: &mut Frame) -> Result<(), MufFault>
    ensures { IsRow CloseMark frame.old frame.new result }
{
    match nearest_mark(frame) {
        Some(n) => {
            count_down_to(frame, n);
            Ok(())
        }
        None => Err(MufFault::BadArgument),
    }
}
