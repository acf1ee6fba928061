// A file of the system that is only read.
ghost use Rattle.std.specs.Prelude.{◌≡◌, ◌≤◌, length, IfSome};
ghost use Rattle.muck_io.specs.Faults.{Rose};

use muck_disk::{Disk, DiskFault};
use std::fs;
use std::os::unix::fs::FileExt;
use std::rt::Files;

// The most bytes of a file of the system.
const SIZE_MOST: u64 = 0x7fff_ffff_ffff_ffff;

fn opened<R: Files<File = fs::File>>(rt: &R, name: &str) -> Option<fs::File> {
    fs::OpenOptions::new().read(true).open(rt, name).ok()
}

// How many bytes the file has.
fn length_of(file: &fs::File) -> Option<u64> {
    let data = file.metadata().ok()?;
    Some(data.len())
}

// Reads from a place on what is there now, as much as fits.
fn read_there(file: &fs::File, at: u64, buf: &mut [u8]) -> Option<usize>
    ensures { IfSome result (λ n. n ≤ length buf.new) }
{
    let left = length_of(file)?.saturating_sub(at);
    let n = left.min(buf.len() as u64) as usize;
    file.read_exact_at(&mut buf[..n], at).ok()?;
    Some(n)
}

/// A file of the system that is only read: it isn't made where there is none, it isn't locked, and each write to it fails. Another process may have it, and write it
/// meanwhile: then each read gives what is there at that moment. Nothing is said of its bytes.
#[derive(Drop)]
pub struct ReadDisk<R> {
    rt: R,
    file: Option<fs::File>,
    faults: u64,
}

impl<R> ReadDisk<R> {
    /// A disk that isn't attached yet: each other call but `size` fails until it is.
    pub fn new(rt: R) -> ReadDisk<R>
        ensures { result.faults ≡ 0 }
    {
        ReadDisk {
            rt,
            file: None,
            faults: 0,
        }
    }

    // Counts a fault.
    fn fault(&mut self) -> DiskFault
        ensures rose { Rose self.old.faults self.new.faults }
        ensures later { self.old.faults ≤ self.new.faults }
    {
        self.faults = self.faults.saturating_add(1);
        DiskFault
    }
}

impl<R: Files<File = fs::File>> Disk for ReadDisk<R> {
    ghost use Rattle.std.specs.Prelude.{[], false, Option, None};

    ghost tells = { false };

    ghost attached = { λ _. None };

    ghost seen = { λ _. [] };

    ghost moment = { λ _. 0 };

    ghost images = { λ _ _ _. Unit {0} };

    ghost faults = { λ d. d.faults };

    ghost seen_left = { λ _ _. tt };

    fn attach(&mut self, name: &str) -> Result<(), DiskFault> {
        self.file = opened(&self.rt, name);
        if self.file.is_some() {
            return Ok(());
        }
        Err(self.fault())
    }

    // The file may grow at any moment: a length that was told would be outdated at the next one.
    fn size(&mut self) -> Result<u64, DiskFault> {
        Ok(SIZE_MOST)
    }

    fn read(&mut self, at: u64, buf: &mut [u8]) -> Result<usize, DiskFault> {
        if let Some(file) = &self.file {
            if let Some(n) = read_there(file, at, buf) {
                return Ok(n);
            }
        }
        Err(self.fault())
    }

    fn write_at(&mut self, _at: u64, _bytes: &[u8]) -> Result<(), DiskFault> {
        Err(self.fault())
    }

    // What another process has written is put on the disk too.
    fn sync(&mut self) -> Result<(), DiskFault> {
        if let Some(file) = &self.file {
            if file.sync_all().is_ok() {
                return Ok(());
            }
        }
        Err(self.fault())
    }
}
