// Where bytes go.
ghost use Rattle.std.specs.Prelude.{◌≡◌, ◌≤◌, List, ℕ, OnOk, OnErr, Option};
ghost use Rattle.muck_io.specs.Faults.{Rose};
ghost use Rattle.muck_io.specs.Sink.{HasPut, PutCause, Appends, AppendsFront, BrokeWriting};

/// What a write answers.
#[derive(Clone, Copy, Debug, PartialEq, Eq)]
pub enum Put {
    /// So many bytes of the front of the piece were taken.
    Bytes(usize),
    /// The write failed, and no byte was taken.
    Failed,
}

/// Where bytes go.
pub trait Sink {
    /// The bytes that were written, where it tells them.
    ghost written: { Self → Option (List ℕ) };

    /// How many faults it had. The count never falls, and stands still at 2^64 - 1.
    ghost faults: { Self → ℕ };

    /// Writes a front of these bytes. The count of faults rises where the write fails, or takes
    /// nothing of a piece that has bytes, and nowhere else.
    fn write(&mut self, bytes: &[u8]) -> Put
        ensures bytes { HasPut (written self.old) (written self.new) bytes.now result }
        ensures cause { PutCause (faults self.old) (faults self.new) bytes.now result };
}

/// The sink failed, or took nothing of what it was given.
#[derive(Clone, Copy, Debug, PartialEq, Eq)]
pub struct WriteFailed;

/// Writes all of the bytes, piece by piece. At the first fault it stops: a front of the bytes stands
/// in the sink, and nothing is written after the fault.
pub fn write_all<K: Sink>(out: &mut K, bytes: &[u8]) -> Result<(), WriteFailed>
    ensures ok { OnOk result (Appends (K.written out.old) (K.written out.new) bytes.now) }
    ensures fine { OnOk result (K.faults out.new ≡ K.faults out.old) }

    // A front was written, then the one fault came.
    ensures front { OnErr result (AppendsFront (K.written out.old) (K.written out.new) bytes.now) }
    ensures broke { OnErr result (BrokeWriting K K.written K.faults out.old out.new bytes.now) }

    // The count of faults rose at an error, and falls never.
    ensures failed { OnErr result (Rose (K.faults out.old) (K.faults out.new)) }
    ensures later { K.faults out.old ≤ K.faults out.new }
{
    let mut rest = bytes;
    while !rest.is_empty() {
        match out.write(rest) {
            Put::Bytes(n) => {
                if n == 0 {
                    return Err(WriteFailed);
                }
                rest = rest.split_at(n).1;
            }
            Put::Failed => return Err(WriteFailed),
        }
    }
    Ok(())
}
