// What is seen of a process before a unit.
ghost use Rattle.std.specs.Prelude.{◌≡◌, IfOk, map, drop, reverse};
ghost use Rattle.muf_model.specs.inner.View.{view};
ghost use Rattle.muf_frame.specs.inner.Shown.{flat};
ghost use Rattle.muf_debug.specs.Views.{view_at};

use crate::values::ValueRow;
use muck_model::{Dbref, NoMemory};
use muf_frame::Frame;
use muf_model::{Value, VarId};
use muf_running::Running;
use std::alloc::Global;

/// A process before a unit: its number, the running program, the line of the source that comes next, the stack from the bottom, and the
/// variables of the running call.
#[derive(Drop)]
pub struct View {
    pub pid: i32,
    pub program: Dbref,
    pub line: u32,
    pub stack: ValueRow,
    pub scope: ValueRow,
}

// The number of the first variable of a call.
const CALL_FIRST: u32 = 68;

// The stack, from the bottom.
fn stack_of(alloc: Global, frame: &Frame) -> Result<Vec<Value>, NoMemory>
    ensures { IfOk result (λ items. map view items.items ≡ reverse (flat frame.now).stack) }
{
    let mut items = Vec::new(alloc);
    let mut depth = frame.len();
    while depth > 0 {
        depth -= 1;
        match frame.peek(depth) {
            Some(value) => items.push(value.copy()?)?,
            None => unreachable!(),
        }
    }
    Ok(items)
}

// The variables of the running call. Where there are more of them than numbers, that is want of memory.
fn scope_of(alloc: Global, frame: &Frame) -> Result<Vec<Value>, NoMemory>
    ensures { IfOk result (λ items. map view items.items ≡ drop (flat frame.now).base (flat frame.now).variables) }
{
    let mut items = Vec::new(alloc);
    let mut number = CALL_FIRST;
    while number < u32::MAX {
        match frame.variable(VarId(number)) {
            Some(value) => items.push(value.copy()?)?,
            None => return Ok(items),
        }
        number += 1;
    }
    Err(NoMemory)
}

impl View {
    /// A process of this number as it stands. It shares texts, lists and dictionaries with the process.
    pub fn of(alloc: Global, pid: i32, running: &Running) -> Result<View, NoMemory>
        ensures { IfOk result (λ v. v ≡ view_at pid running.now) }
    {
        let frame = running.frame();
        let stack = ValueRow::of(stack_of(alloc, frame)?);
        let scope = ValueRow::of(scope_of(alloc, frame)?);
        Ok(View {
            pid,
            program: running.program(),
            line: running.line(),
            stack,
            scope,
        })
    }
}
