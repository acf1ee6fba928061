//! Who may do what, in code: the level and the user of a program, and the verdict on an act.
#![tactic(auto)]

mod flags;
mod guard;
mod levels;
mod locks;
mod rules;
mod shown;

pub use guard::Guard;
pub use levels::{
    MASTER, command_level, controls_as, effective, flag_at, is_player_at, level, level_at,
    owner_at, user,
};
pub use locks::{lock_text, message_at, opens_at};
pub use rules::{Pass, verdict};
pub use shown::{long_form, name_shown};
