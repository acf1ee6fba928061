//! The part of the world that commands and programs change, as data: `specs/` holds the record of an object, the lists
//! of contents and exits, every change that a call of the database makes to them, when it is refused, and what a
//! consistent world is; and the connections with their output, and every change that a call of the board makes to
//! them. The code here is the types that these definitions need.
#![tactic(auto)]

mod fault;
mod flag;
mod mark;
mod message;
mod moved;
mod object;
mod paths;
mod rows;
mod saving;

pub use fault::DbFault;
pub use flag::{
    BUILDER, CHOWN, DARK, HAVEN, JUMP, LINK, QUELL, SETUID, VEHICLE, WIZARD, flag_of, has_flag,
};
pub use mark::{Changed, Mark};
pub use message::{Message, MessageRow};
pub use moved::Move;
pub use object::Object;
pub use paths::paths_agree;
pub use rows::rows_hold;
pub use saving::Saving;
