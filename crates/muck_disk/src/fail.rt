// A disk in memory that fails one chosen call.
ghost use Rattle.std.specs.Prelude.{◌≡◌, ◌≤◌, ◌-◌, ◌==◌, ◌&&◌, not, false, min, take, drop, length, option_map, Some, IfOk, OnOk, OnErr};
ghost use Rattle.muck_io.specs.Faults.{Rose};
ghost use Rattle.muck_disk.specs.Images.{Only, Same, Torn, bytes_written};

use crate::{Disk, DiskFault, MemDisk};

/// A disk in memory that fails the call of one number, from 0 on, and does the others.
#[derive(Drop)]
pub struct FailDisk {
    disk: MemDisk,
    left: u64,
    failed: bool,
}

impl FailDisk {
    /// Fails the call `at` of this disk.
    pub fn new(disk: MemDisk, at: u64) -> FailDisk
        ensures disk { result.disk ≡ disk }
        ensures chosen { (result.left ≡ at) × (result.failed ≡ false) }
    {
        FailDisk {
            disk,
            left: at,
            failed: false,
        }
    }

    /// The disk itself.
    pub fn disk(&self) -> &MemDisk
        ensures { result.now ≡ self.now.disk }
    {
        &self.disk
    }

    // Whether this call is the chosen one.
    fn is_chosen(&mut self) -> bool
        ensures chosen { result ≡ (not self.old.failed && (self.old.left == 0)) }
        ensures disk { self.new.disk ≡ self.old.disk }
    {
        if self.failed {
            return false;
        }
        if self.left == 0 {
            self.failed = true;
            return true;
        }
        self.left -= 1;
        false
    }
}

impl Disk for FailDisk {
    ghost use Rattle.std.specs.Prelude.{true};
    ghost use Rattle.muck_disk.specs.inner.Replay.{left_at};
    ghost use Rattle.muck_disk.specs.inner.Memory.{left_of, Leaves, Passes, mem_seen_left};

    ghost tells = { true };

    ghost attached = { λ d. option_map (λ v. v.items) d.disk.name };

    ghost seen = { λ d. d.disk.bytes.items };

    ghost moment = { λ d. length d.disk.calls.items };

    ghost images = { λ d t c. left_at d.disk.first.items d.disk.calls.items t c };

    ghost faults = { λ d. d.disk.faults };

    ghost seen_left = { λ d _. mem_seen_left d.disk };

    fn attach(&mut self, name: &str) -> Result<(), DiskFault>
        ensures name { OnOk result (option_map (λ v. v.items) self.new.disk.name ≡ Some name.now) }
        ensures seen { self.new.disk.bytes.items ≡ self.old.disk.bytes.items }
        ensures time { Passes self.old.disk self.new.disk Same }
        ensures leaves { Leaves (left_of self.old.disk) (left_of self.new.disk) Same }
        ensures later { self.old.disk.faults ≤ self.new.disk.faults }
        ensures cause { OnErr result (Rose self.old.disk.faults self.new.disk.faults) }
    {
        if self.is_chosen() {
            return Err(self.disk.fault());
        }
        self.disk.attach(name)
    }

    fn size(&mut self) -> Result<u64, DiskFault>
        ensures size { IfOk result (λ n. n ≡ length self.old.disk.bytes.items) }
        ensures keeps { self.new.disk.name ≡ self.old.disk.name }
        ensures seen { self.new.disk.bytes.items ≡ self.old.disk.bytes.items }
        ensures time { Passes self.old.disk self.new.disk Same }
        ensures leaves { Leaves (left_of self.old.disk) (left_of self.new.disk) Same }
        ensures later { self.old.disk.faults ≤ self.new.disk.faults }
        ensures cause { OnErr result (Rose self.old.disk.faults self.new.disk.faults) }
    {
        if self.is_chosen() {
            return Err(self.disk.fault());
        }
        self.disk.size()
    }

    fn read(&mut self, at: u64, buf: &mut [u8]) -> Result<usize, DiskFault>
        ensures fits { IfOk result (λ n. n ≤ length buf.new) }
        ensures count { IfOk result (λ n. n ≡ min (length self.old.disk.bytes.items - at) (length buf.new)) }
        ensures bytes { IfOk result (λ n. take n buf.new ≡ take n (drop at self.old.disk.bytes.items)) }
        ensures keeps { self.new.disk.name ≡ self.old.disk.name }
        ensures seen { self.new.disk.bytes.items ≡ self.old.disk.bytes.items }
        ensures time { Passes self.old.disk self.new.disk Same }
        ensures leaves { Leaves (left_of self.old.disk) (left_of self.new.disk) Same }
        ensures later { self.old.disk.faults ≤ self.new.disk.faults }
        ensures cause { OnErr result (Rose self.old.disk.faults self.new.disk.faults) }
    {
        if self.is_chosen() {
            return Err(self.disk.fault());
        }
        self.disk.read(at, buf)
    }

    fn write_at(&mut self, at: u64, bytes: &[u8]) -> Result<(), DiskFault>
        requires { at ≤ length self.old.disk.bytes.items }
        ensures written { OnOk result (self.new.disk.bytes.items ≡ bytes_written self.old.disk.bytes.items at bytes.now) }
        ensures keeps { self.new.disk.name ≡ self.old.disk.name }
        ensures time { Passes self.old.disk self.new.disk (Torn at (length bytes.now)) }
        ensures leaves { OnOk result (Leaves (left_of self.old.disk) (left_of self.new.disk) (Torn at (length bytes.now))) }
        ensures later { self.old.disk.faults ≤ self.new.disk.faults }
        ensures cause { OnErr result (Rose self.old.disk.faults self.new.disk.faults) }
    {
        if self.is_chosen() {
            return Err(self.disk.fail_write(at, bytes));
        }
        self.disk.write_at(at, bytes)
    }

    fn sync(&mut self) -> Result<(), DiskFault>
        ensures durable { OnOk result (Only self.new.disk.bytes.items (left_of self.new.disk)) }
        ensures keeps { self.new.disk.name ≡ self.old.disk.name }
        ensures seen { self.new.disk.bytes.items ≡ self.old.disk.bytes.items }
        ensures time { Passes self.old.disk self.new.disk Same }
        ensures leaves { OnErr result (Leaves (left_of self.old.disk) (left_of self.new.disk) Same) }
        ensures later { self.old.disk.faults ≤ self.new.disk.faults }
        ensures cause { OnErr result (Rose self.old.disk.faults self.new.disk.faults) }
    {
        if self.is_chosen() {
            return Err(self.disk.fault());
        }
        self.disk.sync()
    }
}
