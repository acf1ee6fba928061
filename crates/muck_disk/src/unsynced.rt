// What was written to a file since it was last put on the disk.
ghost use Rattle.std.specs.Prelude.{◌≡◌, ◌≤◌, ◌<◌, ◌+◌, ◌^◌, length, false, true, IfSome};

use std::fs;
use std::io::ErrorKind;
use std::os::unix::fs::FileExt;

// How often a read that a signal broke off is tried again.
const TRIES: u32 = 1_000;

// How many bytes are written again at a time.
const PIECE: usize = 8_192;

fn read_some(file: &fs::File, at: u64, buf: &mut [u8]) -> Option<usize>
    ensures { IfSome result (λ n. n ≤ length buf.new) }
{
    for _ in 0..TRIES {
        match file.read_at(buf, at) {
            Ok(n) => return Some(n),
            Err(e) if e.kind() == ErrorKind::Interrupted => {}
            Err(_) => return None,
        }
    }
    None
}

/// Reads until the buffer is full or the file ends.
pub(crate) fn fill(file: &fs::File, at: u64, buf: &mut [u8]) -> Option<usize>
    ensures { IfSome result (λ n. n ≤ length buf.new) }
{
    let mut got = 0;
    while got < buf.len() {
        let n = read_some(file, at.saturating_add(got as u64), &mut buf[got..])?;
        if n == 0 {
            return Some(got);
        }
        got += n;
    }
    Some(got)
}

/// Writes all these bytes.
pub(crate) fn put(file: &fs::File, at: u64, bytes: &[u8]) -> bool {
    file.write_all_at(bytes, at).is_ok()
}

// Writes again what the file has between these places.
fn put_again(file: &fs::File, from: u64, to: u64) -> bool {
    let mut piece = [0u8; PIECE];
    let mut at = from;
    while at < to {
        let most = (to - at).min(PIECE as u64) as usize;
        let Some(n) = fill(file, at, &mut piece[..most]) else {
            return false;
        };
        if n == 0 {
            return true;
        }
        if !put(file, at, &piece[..n]) {
            return false;
        }
        at += n as u64;
    }
    true
}

/// The places of a file that were written since the last sync that succeeded, and whether one failed since. The system
/// tells once that it couldn't put a page on the disk, and then takes that page for one that is there: so what was
/// written has to be written again before a later sync says anything of it.
#[derive(Clone, Copy, Drop)]
pub(crate) struct Unsynced {
    from: u64,
    to: u64,
    failed: bool,
}

impl Unsynced {
    /// Nothing was written.
    pub(crate) fn none() -> Unsynced
        ensures nothing { result.to ≤ result.from }
        ensures fine { result.failed ≡ false }
    {
        Unsynced {
            from: 0,
            to: 0,
            failed: false,
        }
    }

    /// With a write of so many bytes from this place on.
    pub(crate) fn with(self, at: u64, n: usize) -> Unsynced
        ensures here { at + n < 2 ^ 64 → (result.from ≤ at) × (at + n ≤ result.to) }
        ensures before { self.from < self.to → (result.from ≤ self.from) × (self.to ≤ result.to) }
        ensures failed { result.failed ≡ self.failed }
    {
        let end = at.saturating_add(n as u64);
        if self.to <= self.from {
            return Unsynced {
                from: at,
                to: end,
                failed: self.failed,
            };
        }
        Unsynced {
            from: self.from.min(at),
            to: self.to.max(end),
            failed: self.failed,
        }
    }

    /// The same behind a sync that failed.
    pub(crate) fn failing(self) -> Unsynced
        ensures kept { (result.from ≡ self.from) × (result.to ≡ self.to) }
        ensures failed { result.failed ≡ true }
    {
        Unsynced {
            from: self.from,
            to: self.to,
            failed: true,
        }
    }

    /// Puts all of it on the disk; behind a sync that failed it is written again first.
    pub(crate) fn sync(self, file: &fs::File) -> bool {
        if self.failed && !put_again(file, self.from, self.to) {
            return false;
        }
        file.sync_all().is_ok()
    }
}
