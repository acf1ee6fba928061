// What a line of a script of `debug` asks for.
use muck_model::Dbref;
use muck_script::Act;

/// What a line of a script of `debug` asks for.
#[derive(Drop)]
pub enum DebugAct {
    /// What such a line asks of `run`.
    Plain(Act),
    /// That this line of this program is a break.
    Break(Dbref, u32),
    /// That it is one no longer.
    Clear(Dbref, u32),
    /// That each unit is shown, or none but those at a break.
    Trace(bool),
}
