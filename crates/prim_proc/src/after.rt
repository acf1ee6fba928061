// What becomes of a process behind a primitive.
use muck_model::Dbref;
use muf_model::Text;

/// What is to follow where a primitive of processes was done.
#[derive(Drop)]
pub enum After {
    /// The process goes on.
    Go,
    /// It waits.
    Wait,
    /// It has a child, and there is room for the item that each of both gets.
    Fork,
    /// The word of that name is to be entered, or the last one, of this program. What CALL takes is still on the stack: the
    /// program, and upon it the name where there is one.
    Call {
        program: Dbref,
        word: Option<Text>,
    },
    /// The program is to be started in the background, so many seconds later. The three items that QUEUE takes are still on the
    /// stack.
    Queue {
        program: Dbref,
        delay: u32,
        argument: Text,
    },
}
