// The primitives that only move items, and take no memory.
ghost use Rattle.std.specs.Prelude.{◌≡◌, ◌+◌, ◌<◌, ◌≤◌, ◌∷◌, [], ℕ, ℤ, Some, pos, List, length, drop, IfOk, IfErr};
ghost use Rattle.muf_model.specs.declared.prims.Primitive.TheVariants.{Pop, Swap, Rot, Rotate, Put, Nip, PopN, Reverse, Depth, OpenMark, CloseMark};
ghost use Rattle.muf_model.specs.Answer.{Answer, refuses};
ghost use Rattle.muf_model.specs.Datum.{Datum};
ghost use Rattle.muf_model.specs.StackRows.{rotated_up, rotated_down};
ghost use Rattle.muf_frame.specs.inner.Shown.{Shown, flat, locked_by};
ghost use Rattle.muf_frame.specs.inner.Answers.{IsRow, int_at};
ghost use Rattle.prim_stack.specs.inner.Does.{counting};

use muf_frame::Frame;
use muf_model::{MufFault, STACK_MOST, Value};

/// POP.
#[tactic(auto, using(crate::proofs::Tops::give_steps))]
#[inline(always)]
pub(crate) fn pop(frame: &mut Frame) -> Result<(), MufFault>
    ensures { IsRow Pop frame.old frame.new result }
{
    let _dropped = frame.pop()?;
    Ok(())
}

/// SWAP.
#[tactic(auto, using(crate::proofs::Tops::give_steps))]
#[inline(always)]
pub(crate) fn swap(frame: &mut Frame) -> Result<(), MufFault>
    ensures { IsRow Swap frame.old frame.new result }
{
    frame.need(2)?;
    match frame.pop_item() {
        Some(y) => match frame.pop_item() {
            Some(x) => {
                frame.push_item(y);
                frame.push_item(x);
                Ok(())
            }
            None => unreachable!(),
        },
        None => unreachable!(),
    }
}

/// ROT.
#[tactic(auto, using(crate::proofs::Tops::give_steps))]
pub(crate) fn rot(frame: &mut Frame) -> Result<(), MufFault>
    ensures { IsRow Rot frame.old frame.new result }
{
    frame.need(3)?;
    match frame.pop_item() {
        Some(z) => match frame.pop_item() {
            Some(y) => match frame.pop_item() {
                Some(x) => {
                    frame.push_item(y);
                    frame.push_item(z);
                    frame.push_item(x);
                    Ok(())
                }
                None => unreachable!(),
            },
            None => unreachable!(),
        },
        None => unreachable!(),
    }
}

/// NIP.
#[tactic(auto, using(crate::proofs::Tops::give_steps))]
pub(crate) fn nip(frame: &mut Frame) -> Result<(), MufFault>
    ensures { IsRow Nip frame.old frame.new result }
{
    frame.need(2)?;
    match frame.pop_item() {
        Some(y) => match frame.pop_item() {
            Some(_) => {
                frame.push_item(y);
                Ok(())
            }
            None => unreachable!(),
        },
        None => unreachable!(),
    }
}

/// DEPTH.
#[tactic(auto, using(crate::proofs::Tops::give_steps))]
pub(crate) fn depth(frame: &mut Frame) -> Result<(), MufFault>
    ensures { IsRow Depth frame.old frame.new result }
{
    let depth = frame.depth() as i32;
    frame.push(Value::Int(depth))?;
    Ok(())
}

/// `{`.
#[tactic(auto, using(crate::proofs::Tops::give_steps))]
pub(crate) fn open_mark(frame: &mut Frame) -> Result<(), MufFault>
    ensures { IsRow OpenMark frame.old frame.new result }
{
    frame.push(Value::Mark)?;
    Ok(())
}

// The count that stands on the top, where so many items stand below it beside the fixed ones, which are there.
fn counted(frame: &Frame, fixed: usize, n: usize) -> Result<usize, MufFault>
    requires some { 0 < fixed }
    requires there { locked_by (flat frame.now).marks + fixed ≤ length frame.now.stack }
    requires small { n < 2147483648 }
    requires few { fixed ≤ 2 }
    requires top { int_at 0 (flat frame.now).stack ≡ Some (pos n) }
    ensures ok { IfOk result (λ k. (answer : List Datum → ℕ → Answer) → counting fixed frame.now answer ≡ answer (drop 1 (flat frame.now).stack) k) }
    ensures value { IfOk result (λ k. k ≡ n) }
    ensures enough { IfOk result (λ _. n + fixed ≤ length frame.now.stack) }
    ensures err { IfErr result (λ e. (answer : List Datum → ℕ → Answer) → counting fixed frame.now answer ≡ refuses e) }
{
    match frame.need(n + fixed) {
        Ok(()) => Ok(n),
        Err(refused) => Err(refused),
    }
}

// The count on the top, where so many items stand below it beside the fixed ones.
#[tactic(auto, using(crate::proofs::Tops::count_steps))]
pub(crate) fn count(frame: &Frame, fixed: usize) -> Result<usize, MufFault>
    requires some { 0 < fixed }
    requires few { fixed ≤ 2 }
    ensures ok { IfOk result (λ n. (answer : List Datum → ℕ → Answer) → counting fixed frame.now answer ≡ answer (drop 1 (flat frame.now).stack) n) }
    ensures there { IfOk result (λ n. n + fixed ≤ length frame.now.stack) }
    ensures top { IfOk result (λ n. int_at 0 (flat frame.now).stack ≡ Some (pos n)) }
    ensures err { IfErr result (λ e. (answer : List Datum → ℕ → Answer) → counting fixed frame.now answer ≡ refuses e) }
{
    if let Err(refused) = frame.need(fixed) {
        return Err(refused);
    }
    match frame.int_at(0) {
        Some(n) => {
            if n < 0 {
                return Err(MufFault::BadArgument);
            }
            counted(frame, fixed, n as usize)
        }
        None => Err(MufFault::BadType),
    }
}

// The deepest of n items goes to the top.
#[tactic(auto, using(crate::proofs::Tops::move_steps))]
fn lift(frame: &mut Frame, n: usize)
    requires { n ≤ length frame.old.stack }
    ensures { flat frame.new ≡ record (flat frame.old) { stack = rotated_up n (flat frame.old).stack } }
{
    if n > 0 {
        let item = frame.take_item(n - 1);
        frame.push_item(item);
    }
}

// The top goes below the others of n items.
#[tactic(auto, using(crate::proofs::Tops::move_steps))]
fn sink(frame: &mut Frame, n: usize)
    requires { n ≤ length frame.old.stack }
    ensures { flat frame.new ≡ record (flat frame.old) { stack = rotated_down n (flat frame.old).stack } }
{
    if n > 0 {
        match frame.pop_item() {
            Some(item) => frame.put_item(n - 1, item),
            None => unreachable!(),
        }
    }
}

/// ROTATE.
#[tactic(auto, using(crate::proofs::Tops::rotate_steps))]
pub(crate) fn rotate(frame: &mut Frame) -> Result<(), MufFault>
    ensures { IsRow Rotate frame.old frame.new result }
{
    frame.need(1)?;
    match frame.int_at(0) {
        Some(n) => {
            let count = n.unsigned_abs() as usize;
            frame.need(count + 1)?;
            frame.drop_items(1);
            if n >= 0 {
                lift(frame, count);
            } else {
                sink(frame, count);
            }
            Ok(())
        }
        None => Err(MufFault::BadType),
    }
}

/// PUT.
#[tactic(auto, using(crate::proofs::Tops::move_steps))]
pub(crate) fn put(frame: &mut Frame) -> Result<(), MufFault>
    ensures { IsRow Put frame.old frame.new result }
{
    let n = count(frame, 2)?;
    if n == 0 {
        return Err(MufFault::BadArgument);
    }
    frame.drop_items(1);
    match frame.pop_item() {
        Some(item) => {
            frame.set_item(n - 1, item);
            Ok(())
        }
        None => unreachable!(),
    }
}

/// POPN.
#[tactic(auto, using(crate::proofs::Tops::move_steps))]
pub(crate) fn popn(frame: &mut Frame) -> Result<(), MufFault>
    ensures { IsRow PopN frame.old frame.new result }
{
    let n = count(frame, 1)?;
    frame.drop_items(1);
    frame.drop_items(n);
    Ok(())
}

/// REVERSE.
#[tactic(auto, using(crate::proofs::Tops::move_steps))]
pub(crate) fn reverse(frame: &mut Frame) -> Result<(), MufFault>
    ensures { IsRow Reverse frame.old frame.new result }
{
    let n = count(frame, 1)?;
    frame.drop_items(1);
    frame.reverse_items(n);
    Ok(())
}
