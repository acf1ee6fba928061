// How a unit ends.
use muck_model::NoMemory;
use muf_model::{MufFault, Prim};

// How a unit ends: the process goes on, after so many programs were left, or it ends, with or without a fault; or a
// shared primitive comes next, and no unit was taken. A frame that fits no code may be stuck.
#[derive(Drop)]
pub(crate) enum Ran {
    Going(usize),
    Ended,
    Faulted(MufFault),
    Shared(Prim),
    Stuck,
}

// What a step came to: so many units that all went on in the same program, or the end of one that didn't.
#[derive(Drop)]
pub(crate) enum Step {
    Went(u32),
    Over(Result<Ran, NoMemory>),
}
