// The arguments of a header.
ghost use Rattle.std.specs.Prelude.{◌≡◌, ◌+◌, ◌≤◌, ◌++◌, length, take, drop, vec_len, IfOk, OnOk};
ghost use Rattle.muf_frame.specs.inner.Shown.{Shown, flat};
ghost use Rattle.muf_frame.specs.inner.Moves.{bound};

use crate::Frame;
use muck_model::NoMemory;
use muf_model::Value;
use std::alloc::Global;

// The values from a place on, taken off.
fn split_from(values: &mut Vec<Value>, alloc: Global, at: usize) -> Result<Vec<Value>, NoMemory>
    ensures kept { OnOk result (values.new.items ≡ take at values.old.items) }
    ensures rest { IfOk result (λ rest. rest.items ≡ drop at values.old.items) }
{
    if at < values.len() {
        Ok(values.split_off(at)?)
    } else {
        Ok(Vec::new(alloc))
    }
}

// Other values in place of as many from a place on.
fn put_from(
    values: &mut Vec<Value>,
    alloc: Global,
    at: usize,
    others: &mut Vec<Value>,
) -> Result<(), NoMemory>
    ensures { OnOk result (values.new.items ≡ take at values.old.items ++ (others.old.items ++ drop (at + vec_len others.old) values.old.items)) }
{
    let Some(end) = at.checked_add(others.len()) else {
        return Err(NoMemory);
    };
    let mut rest = split_from(values, alloc, end)?;
    values.truncate(at);
    values.append(others)?;
    values.append(&mut rest)?;
    Ok(())
}

impl Frame {
    /// So many items at the top become the first variables of the innermost call, the top one the last of them. After
    /// `NoMemory` nothing is said of the frame.
    pub fn bind(&mut self, alloc: Global, count: usize) -> Result<(), NoMemory>
        requires { count ≤ length self.old.stack }
        ensures { OnOk result (flat self.new ≡ bound count (flat self.old)) }
    {
        let height = self.len() - count;
        let mut arguments = self.stack.split_off(height)?;
        put_from(&mut self.variables, alloc, self.base, &mut arguments)?;
        Ok(())
    }
}
