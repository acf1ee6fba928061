// Texts put together.
ghost use Rattle.std.specs.Prelude.{◌≡◌, ◌++◌, IfOk};

use muck_model::NoMemory;
use std::alloc::Global;

/// A text behind another.
pub fn joined(alloc: Global, first: &[u8], second: &[u8]) -> Result<Vec<u8>, NoMemory>
    ensures { IfOk result (λ v. v.items ≡ first.now ++ second.now) }
{
    let mut whole = Vec::with_capacity(alloc, first.len() + second.len())?;
    whole.extend_from_slice(first)?;
    whole.extend_from_slice(second)?;
    Ok(whole)
}

/// A text between two others.
pub fn around(alloc: Global, before: &[u8], text: &[u8], after: &[u8]) -> Result<Vec<u8>, NoMemory>
    ensures { IfOk result (λ v. v.items ≡ (before.now ++ text.now) ++ after.now) }
{
    let room = (before.len() + text.len()).saturating_add(after.len());
    let mut whole = Vec::with_capacity(alloc, room)?;
    whole.extend_from_slice(before)?;
    whole.extend_from_slice(text)?;
    whole.extend_from_slice(after)?;
    Ok(whole)
}
