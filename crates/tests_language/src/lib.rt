//! Tests of the crates of the language, of what neither a script nor a row of a program `tests_*_rows` can show: that nobody who shares a
//! value sees what another writes, the readers of a process, and code that no source is compiled to.
#![tactic(auto)]

#[cfg(test)]
mod processes;
#[cfg(test)]
mod sharing;
#[cfg(test)]
mod unwritten;

ghost use Rattle.std.specs.Prelude.{◌≡◌, not};
ghost use Rattle.std.specs.List.{position};

/// The place of the first of these that doesn't hold, from 0; `None` exactly where all hold.
pub fn first_wrong(holds: &[bool]) -> Option<usize>
    ensures { result ≡ position not holds.now }
{
    holds.iter().position(|hold| !*hold)
}
