// What is asked of the editor of programs, and what follows.

/// What a line asks of the editor. A place stands between the lines, from 0 before the first to their count.
#[derive(Clone, Copy, Debug, PartialEq, Eq)]
pub enum EditCommand {
    /// To insert lines at this place.
    Insert(u32),
    /// To delete the lines between two places.
    Delete { from: u32, to: u32 },
    /// To list the lines between two places.
    Show { from: u32, to: u32 },
    /// To keep the source and compile it.
    Compile,
    /// To keep the source and leave.
    Quit,
}

/// What follows a line of the editor.
#[derive(Clone, Copy, Debug, PartialEq, Eq)]
pub enum EditStep {
    /// The editor goes on.
    Stay,
    /// The source is kept and is to be compiled; the editor goes on.
    Compile,
    /// The editor is left.
    Left,
}
