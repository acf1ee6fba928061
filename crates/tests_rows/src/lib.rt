//! What the programs of rows share: how rows are read and answered, the words of a row, and texts as they are shown. A row is a line
//! of a program's `stdin`: its first word says what is tried, and the rest is what it is tried on. A program prints the row, ` -> `
//! and what is made of it, and `stdout` has what has to be printed. An empty row prints nothing, and neither does one that begins
//! with `#`.
#![tactic(auto)]

mod answers;
mod sources;
mod words;

pub use answers::{Rows, answered};
pub use sources::{lines_of, part};
pub use words::{Words, add, halves, line, name, path, unfolded, value};
