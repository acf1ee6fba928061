// What a line of a script asks for.
use muck_model::Line;

/// What a line of a script asks for.
#[derive(Drop)]
pub enum Act {
    /// Nothing; the world settles all the same.
    Nothing,
    /// That the connection of this number comes.
    Open(u32),
    /// That this line comes on the connection of this number.
    Send(u32, Line),
    /// That the connection of this number goes.
    Close(u32),
    /// That it is so many seconds later.
    Wait(u64),
    /// That a dump is made.
    Dump,
}
