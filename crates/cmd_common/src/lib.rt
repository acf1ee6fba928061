//! What the commands of players and builders share: the parts of a line, finding what it names, telling and showing.
//! Each function changes the world that a guard lends just as the definition of `spec_commands` of that name says.
#![tactic(auto)]

mod finding;
mod keys;
mod making;
mod messages;
mod names;
mod parts;
mod reading;
mod replies;
mod showing;
mod sources;
mod writing;

pub use finding::{find_object, find_one, find_player, is_object, is_program};
pub use keys::{print_key, read_key};
pub use making::{act_in, create, home_at, may_be};
pub use messages::message_path;
pub use names::{is_name, is_player_name, may_be_called};
pub use parts::{Parts, after_sign, after_word, parts_in};
pub use reading::{arguments, looked_up};
pub use replies::{bad_name, cant_be_done, done, incomplete, refuse};
pub use showing::{
    list, name_and, number_of, place_at, show_created, show_lines, show_name, show_others,
};
pub use sources::{copy_lines, same_lines};
pub use writing::{Write, act_of, put, try_write, write_by_leave};
