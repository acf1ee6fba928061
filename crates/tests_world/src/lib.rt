//! Tests of the world's lower crates that neither a script nor a row can show: readers, writers and clocks that fail, and the deepest
//! locks on the stack of a test.
#![tactic(auto)]

ghost use Rattle.std.specs.Prelude.{◌≡◌, not};
ghost use Rattle.std.specs.List.{position};

#[cfg(test)]
mod devices;
#[cfg(test)]
mod locks;

/// The place of the first row that went wrong.
pub fn first_wrong(rows: &[bool]) -> Option<usize>
    ensures { result ≡ position not rows.now }
{
    rows.iter().position(|right| !*right)
}
