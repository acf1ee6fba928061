// Where bytes come from.
ghost use Rattle.std.specs.Prelude.{◌≡◌, ◌≤◌, List, ℕ, IfOk, OnOk, OnErr, IsErrOf, Option};
ghost use Rattle.muck_io.specs.Faults.{Rose};
ghost use Rattle.muck_io.specs.Source.{HasRead, GotCause, HasReadAll, TookFront, BrokeReading};

use std::alloc::{AllocError, Global};

/// What a read answers.
#[derive(Clone, Copy, Debug, PartialEq, Eq)]
pub enum Got {
    /// So many bytes stand in the front of the buffer; at least one.
    Bytes(usize),
    /// The source is over; or the buffer has no room for a byte.
    End,
    /// The read failed, and no byte was taken.
    Failed,
}

/// Where bytes come from.
pub trait Source {
    /// The bytes that it has left, where it tells them.
    ghost left: { Self → Option (List ℕ) };

    /// How many faults it had. The count never falls, and stands still at 2^64 - 1.
    ghost faults: { Self → ℕ };

    /// Reads some bytes into the front of the buffer. The count of faults rises where the read fails,
    /// and nowhere else.
    fn read(&mut self, buf: &mut [u8]) -> Got
        ensures bytes { HasRead (left self.old) (left self.new) buf.old buf.new result }
        ensures cause { GotCause (faults self.old) (faults self.new) result };
}

/// Why not all was read.
#[derive(Clone, Copy, Debug, PartialEq, Eq)]
pub enum ReadFault {
    /// A read failed.
    Failed,
    /// Memory for the bytes was refused.
    NoMemory,
}

impl From<AllocError> for ReadFault {
    ghost use Rattle.std.specs.Prelude.{◌≡◌};
    ghost use Rattle.muck_io.specs.declared.source.ReadFault.TheVariants.{NoMemory};

    ghost from_gives = { λ _ e. e ≡ NoMemory };

    fn from(_: AllocError) -> Self {
        ReadFault::NoMemory
    }
}

/// Reads to the end of the source, or `most` bytes of it. At an error a front of its bytes was taken,
/// and what is left stands in the source.
pub fn read_all<S: Source>(alloc: Global, source: &mut S, most: usize) -> Result<Vec<u8>, ReadFault>
    ensures ok { IfOk result (λ bytes. HasReadAll (S.left source.old) (S.left source.new) most bytes.items) }
    ensures front { OnErr result (TookFront (S.left source.old) (S.left source.new) most) }

    // The count of faults rose at a fault, and it alone, and falls never.
    ensures failed { IsErrOf result ReadFault.Failed → Rose (S.faults source.old) (S.faults source.new) }
    ensures fine { OnOk result (S.faults source.new ≡ S.faults source.old) }
    ensures no_memory { IsErrOf result ReadFault.NoMemory → S.faults source.new ≡ S.faults source.old }
    ensures later { S.faults source.old ≤ S.faults source.new }

    // After the fault nothing more was read.
    ensures broke { IsErrOf result ReadFault.Failed → BrokeReading S S.left S.faults source.old source.new most }
{
    let mut bytes = Vec::new(alloc);
    let mut buf = [0u8; 4096];
    while bytes.len() < most {
        let room = (most - bytes.len()).min(4096);
        match source.read(&mut buf[..room]) {
            Got::Bytes(n) => bytes.extend_from_slice(&buf[..n])?,
            Got::End => return Ok(bytes),
            Got::Failed => return Err(ReadFault::Failed),
        }
    }
    Ok(bytes)
}
