//! What a line does, as definitions: `specs/` holds the login screen, the commands of players and builders and the lines
//! of the editor, each as a change of what is live; `proofs/` holds the laws about them. The code here is what those
//! definitions need of a line of text: its words.
#![tactic(auto)]

mod edit;
mod new;
mod outcome;
mod presence;
mod rows;
mod setting;
mod shape;
mod typed;
mod word;
mod words;

pub use edit::{EditCommand, EditStep};
pub use new::New;
pub use outcome::Outcome;
pub use presence::Presence;
pub use rows::rows_hold;
pub use setting::{Setting, flag_lettered, setting_act, setting_asked};
pub use shape::{Argument, Arguments, Form, Shape, Want};
pub use typed::Typed;
pub use word::{BuildWord, PlayWord};
pub use words::{alike, cut_at, cut_word, trim};
