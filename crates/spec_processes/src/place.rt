// Where a primitive of processes is used.
use muck_model::Dbref;

/// Where a primitive of processes is used.
#[derive(Clone, Copy, Debug, PartialEq, Eq)]
pub struct Place {
    /// The number of the process.
    pub pid: i32,
    /// The program that runs.
    pub program: Dbref,
    /// The program that called it, where one did.
    pub caller: Option<Dbref>,
    /// The second that it is.
    pub moment: u64,
}
