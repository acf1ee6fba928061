//! The editor of programs: a line that comes while a program is edited changes the lines of the editor, or keeps them as
//! the source of the program, just as `edited` of `spec_commands` says, and changes no more than is open to who typed it.
#![tactic(auto)]

mod checks;
mod commands;
mod editor;
mod keeping;
mod lines;
mod showing;

pub use checks::is_open;
pub use editor::Editor;
pub use spec_commands::EditStep;
