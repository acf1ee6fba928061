// The words of keepers.

/// What a line of a keeper does. Everybody may list and end processes of their own; all else is a wizard's.
#[derive(Clone, Copy, Debug, PartialEq, Eq)]
pub enum AdminWord {
    /// Lists the processes that the player may end.
    Processes,
    /// Ends one.
    Kill,
    /// Shows what is tuned, or sets a parameter.
    Tune,
    /// The connections of a player are to leave.
    Boot,
    /// Says something to everybody.
    Wall,
    /// Makes a player.
    NewPlayer,
    /// Gives a player another password.
    NewPassword,
    /// Asks for a dump.
    Dump,
    /// The world is to stop.
    Shutdown,
}
