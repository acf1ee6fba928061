// A file of the system, which tells nothing.
ghost use Rattle.std.specs.Prelude.{◌≡◌, ◌≤◌, length, IfOk, OnOk, OnErr};
ghost use Rattle.muck_io.specs.Faults.{Rose};

use crate::opened::{length_of, opened};
use crate::unsynced::{Unsynced, fill, put};
use crate::{Disk, DiskFault};
use std::fs;
use std::rt::Files;

/// A file of the system, which is made where there is none, and which no other process attaches as long as this one has
/// it. Nothing is said of its bytes.
#[derive(Drop)]
pub struct FileDisk<R> {
    rt: R,
    file: Option<fs::File>,
    unsynced: Unsynced,
    faults: u64,
}

impl<R> FileDisk<R> {
    /// A disk that isn't attached yet: each other call fails until it is.
    pub fn new(rt: R) -> FileDisk<R>
        ensures { result.faults ≡ 0 }
    {
        FileDisk {
            rt,
            file: None,
            unsynced: Unsynced::none(),
            faults: 0,
        }
    }

    // Counts a fault.
    fn fault(&mut self) -> DiskFault
        ensures rose { Rose self.old.faults self.new.faults }
        ensures later { self.old.faults ≤ self.new.faults }
    {
        self.faults = self.faults.saturating_add(1);
        DiskFault
    }
}

impl<R: Files<File = fs::File>> Disk for FileDisk<R> {
    ghost use Rattle.std.specs.Prelude.{[], false, Option, None};

    ghost tells = { false };

    ghost attached = { λ _. None };

    ghost seen = { λ _. [] };

    ghost moment = { λ _. 0 };

    ghost images = { λ _ _ _. Unit {0} };

    ghost faults = { λ d. d.faults };

    ghost seen_left = { λ _ _. tt };

    fn attach(&mut self, name: &str) -> Result<(), DiskFault> {
        // An earlier file is let go first, and its lock with it.
        self.file = None;
        self.unsynced = Unsynced::none();
        self.file = opened(&self.rt, name);
        if self.file.is_some() {
            return Ok(());
        }
        Err(self.fault())
    }

    fn size(&mut self) -> Result<u64, DiskFault> {
        if let Some(file) = &self.file {
            if let Some(n) = length_of(file) {
                return Ok(n);
            }
        }
        Err(self.fault())
    }

    fn read(&mut self, at: u64, buf: &mut [u8]) -> Result<usize, DiskFault> {
        if let Some(file) = &self.file {
            if let Some(n) = fill(file, at, buf) {
                return Ok(n);
            }
        }
        Err(self.fault())
    }

    fn write_at(&mut self, at: u64, bytes: &[u8]) -> Result<(), DiskFault> {
        if let Some(file) = &self.file {
            self.unsynced = self.unsynced.with(at, bytes.len());
            if put(file, at, bytes) {
                return Ok(());
            }
        }
        Err(self.fault())
    }

    fn sync(&mut self) -> Result<(), DiskFault> {
        if let Some(file) = &self.file {
            if self.unsynced.sync(file) {
                self.unsynced = Unsynced::none();
                return Ok(());
            }
        }
        self.unsynced = self.unsynced.failing();
        Err(self.fault())
    }
}
