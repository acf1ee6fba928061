// How a call ends.
ghost use Rattle.std.specs.Prelude.{◌≡◌};
ghost use Rattle.muck_why.specs.Causes.{row_of, status_of, why_of};

use muck_log::LogFault;
use std::fmt;

/// Why a call of the program ends as it does.
#[derive(Clone, Copy, Debug, PartialEq, Eq)]
pub enum Why {
    /// The work was done.
    Fine,
    /// The words are no command.
    Usage,
    /// The first line of the script that is outside its grammar has this number, from 1.
    BadScript { line: u64 },
    /// Memory was wanted.
    NoMemory,
    /// The source of the script failed.
    ReadFault,
    /// The sink of the transcript failed.
    WriteFault,
    /// A disk failed as the files were opened, as the store was mounted or in the last dump.
    DiskFault,
    /// The batch whose gate stands at this place of this file of the store is outside the format.
    Damaged { second: bool, at: u64 },
    /// Listening failed.
    ListenFault,
    /// The last dump would begin at `end` and has `more` bytes, which is past what a file may have.
    StoreFull { end: u64, more: u64 },
    /// So many turns were taken, and there are no more.
    Spent { turns: u64 },
}

/// What is so of a cause: the exit status, and the name by which it is shown.
#[derive(Clone, Copy)]
pub struct Row {
    pub status: u8,
    pub name: &'static str,
}

// A row of the table.
fn cause(status: u8, name: &'static str) -> Row
    ensures status { result.status ≡ status }
    ensures name { result.name.now ≡ name.now }
{
    Row { status, name }
}

impl Why {
    /// Its row in the table of all causes.
    pub fn row(self) -> Row
        ensures status { result.status ≡ (row_of self).status }
        ensures name { result.name.now ≡ (row_of self).name }
    {
        match self {
            Why::Fine => cause(0, "Fine"),
            Why::Usage => cause(1, "Usage"),
            Why::BadScript { line: _ } => cause(2, "BadScript"),
            Why::NoMemory => cause(3, "NoMemory"),
            Why::ReadFault => cause(4, "ReadFault"),
            Why::WriteFault => cause(5, "WriteFault"),
            Why::DiskFault => cause(6, "DiskFault"),
            Why::Damaged { second: _, at: _ } => cause(7, "Damaged"),
            Why::ListenFault => cause(8, "ListenFault"),
            Why::StoreFull { end: _, more: _ } => cause(9, "StoreFull"),
            Why::Spent { turns: _ } => cause(10, "Spent"),
        }
    }

    /// The exit status.
    pub fn status(self) -> u8
        ensures { result ≡ status_of self }
    {
        self.row().status
    }
}

impl fmt::Display for Why {
    fn fmt<W: fmt::Write>(&self, f: &mut fmt::Formatter<W>) -> fmt::Result {
        f.write_str(self.row().name)?;
        match self {
            Why::BadScript { line } => write!(f, " {line}"),
            Why::Damaged { second, at } => write!(f, " {} {at}", u8::from(*second)),
            Why::StoreFull { end, more } => write!(f, " {end} {more}"),
            Why::Spent { turns } => write!(f, " {turns}"),
            _ => Ok(()),
        }
    }
}

/// Why a call ends whose last dump failed by this fault.
pub fn why_of(fault: LogFault) -> Why
    ensures { result ≡ why_of fault }
{
    match fault {
        LogFault::NoMemory => Why::NoMemory,
        LogFault::DiskFault => Why::DiskFault,
        LogFault::Damaged { second, at } => Why::Damaged { second, at },
        LogFault::StoreFull { end, more } => Why::StoreFull { end, more },
        // No dump of a world answers this on disks that tell their bytes.
        LogFault::Stale => Why::Damaged {
            second: false,
            at: 0,
        },
    }
}
