// A disk in memory, which keeps the list of all calls.
ghost use Rattle.std.specs.Prelude.{◌≡◌, ◌≤◌, ◌+◌, ◌-◌, ◌<◌, min, ◌++◌, [], ◌∷◌, List, length, take, drop, reverse, true, false, option_map, Some, IfOk, OnOk, OnErr};
ghost use Rattle.muck_io.specs.Faults.{Rose};
ghost use Rattle.muck_disk.specs.Images.{Elapses, Only, Same, Torn, bytes_written};
ghost use Rattle.muck_disk.specs.declared.memory.Call.TheVariants.{Wrote};
ghost use Rattle.muck_disk.specs.inner.Replay.{left_at, image_at, synced_at, torn_to, seen_at, seen_after, seen_by, all_within, is_within};

use crate::{Disk, DiskFault};
use muck_model::{ByteList, NoMemory};
use std::alloc::{AllocError, Global};

/// One call of a disk in memory.
#[derive(Drop)]
pub enum Call {
    /// Attached, asked for its size, or read.
    Asked,
    /// Wrote these bytes; where it failed, any part may have been done, and a read gives none of it.
    Wrote { at: u64, bytes: Vec<u8>, done: bool },
    /// Synced, or failed to.
    Synced { done: bool },
}

/// A disk in memory. It keeps the list of all its calls, and so knows every image that a crash may leave: its clock is
/// how many calls there were. A call fails only where memory is refused.
#[derive(Drop)]
pub struct MemDisk {
    alloc: Global,
    name: Option<Vec<u8>>,
    first: Vec<u8>,
    bytes: Vec<u8>,
    calls: Vec<Call>,
    faults: u64,
    ghost kept: { bytes.items ≡ seen_after first.items (reverse calls.items) },
    ghost within: { all_within first.items (reverse calls.items) ≡ true },
}

// The bytes with these written at this place.
fn spliced(alloc: Global, old: &[u8], at: usize, bytes: &[u8]) -> Result<Vec<u8>, AllocError>
    requires { at ≤ length old.now }
    ensures { IfOk result (λ v. v.items ≡ bytes_written old.now at bytes.now) }
{
    let (front, back) = old.split_at(at);
    let mut next = front.to_vec(alloc)?;
    next.extend_from_slice(bytes)?;
    if bytes.len() < back.len() {
        next.extend_from_slice(back.split_at(bytes.len()).1)?;
    }
    Ok(next)
}

// The bytes after a torn write: the range is `byte`, and the file grows to `room` at most.
fn torn(
    alloc: Global,
    old: &[u8],
    at: usize,
    n: usize,
    room: u128,
    byte: u8,
) -> Result<Vec<u8>, AllocError>
    requires { min at room ≤ length old.now }
    ensures { IfOk result (λ v. v.items ≡ torn_to room byte old.now at n) }
{
    if at > old.len() {
        return old.to_vec(alloc);
    }
    let end = (at as u128 + n as u128).min((old.len() as u128).max(room));
    let fill = vec![in alloc; byte; (end - at as u128) as usize]?;
    spliced(alloc, old, at, &fill)
}

// What a crash may leave after call `i` too: what a read gives, an image, and how long the image may grow.
#[derive(Drop)]
struct Replay {
    seen: Vec<u8>,
    left: Vec<u8>,
    room: u128,
}

fn one_more(
    alloc: Global,
    first: &[u8],
    calls: &[Call],
    i: usize,
    now: Replay,
    kept: u64,
    byte: u8,
) -> Result<Replay, AllocError>
    requires within { all_within first.now (reverse calls.now) ≡ true }
    requires i { i < length calls.now }
    requires seen { now.seen.items ≡ seen_at first.now calls.now i }
    requires left { now.left.items ≡ image_at kept byte first.now calls.now i }
    requires room { now.room ≡ synced_at first.now calls.now i + kept }
    ensures seen { IfOk result (λ r. r.seen.items ≡ seen_at first.now calls.now (i + 1)) }
    ensures left { IfOk result (λ r. r.left.items ≡ image_at kept byte first.now calls.now (i + 1)) }
    ensures room { IfOk result (λ r. r.room ≡ synced_at first.now calls.now (i + 1) + kept) }
{
    let Replay { seen, left, room } = now;
    match &calls[i] {
        Call::Wrote { at, bytes, done } => {
            let left = torn(alloc, &left, *at as usize, bytes.len(), room, byte)?;
            if *done {
                let seen = spliced(alloc, &seen, *at as usize, bytes)?;
                return Ok(Replay { seen, left, room });
            }
            Ok(Replay { seen, left, room })
        }
        Call::Synced { done } => {
            if *done {
                let left = seen.as_slice().to_vec(alloc)?;
                let room = left.len() as u128 + kept as u128;
                return Ok(Replay { seen, left, room });
            }
            Ok(Replay { seen, left, room })
        }
        Call::Asked => Ok(Replay { seen, left, room }),
    }
}

impl MemDisk {
    /// A disk with these bytes, all of them durable.
    pub fn new(alloc: Global, bytes: &[u8]) -> Result<MemDisk, NoMemory>
        ensures bytes { IfOk result (λ d. d.bytes.items ≡ bytes.now) }
        ensures first { IfOk result (λ d. d.first.items ≡ bytes.now) }
        ensures calls { IfOk result (λ d. d.calls.items ≡ []) }
        ensures fine { IfOk result (λ d. d.faults ≡ 0) }
    {
        Ok(MemDisk {
            alloc,
            name: None,
            first: bytes.to_vec(alloc)?,
            bytes: bytes.to_vec(alloc)?,
            calls: Vec::new(alloc),
            faults: 0,
        })
    }

    /// What a read gives.
    pub fn bytes(&self) -> &[u8]
        ensures { result.now ≡ self.now.bytes.items }
    {
        &self.bytes
    }

    /// Its clock: how many calls there were.
    pub fn moment(&self) -> u64
        ensures { result ≡ length self.now.calls.items }
    {
        self.calls.len() as u64
    }

    /// The image that a crash at this moment may leave of which each written byte that isn't synced is `torn`, and of
    /// those past the synced end the first `kept` are there.
    pub fn image(&self, moment: u64, kept: u64, torn: u8) -> Result<ByteList, NoMemory>
        requires { moment ≤ length self.now.calls.items }
        ensures image { IfOk result (λ v. v ≡ image_at kept torn self.now.first.items self.now.calls.items moment) }
        ensures left { IfOk result (λ v. left_at self.now.first.items self.now.calls.items moment v) }
    {
        let mut now = Replay {
            seen: self.first.to_vec(self.alloc)?,
            left: self.first.to_vec(self.alloc)?,
            room: self.first.len() as u128 + kept as u128,
        };
        for i in 0..moment as usize {
            now = one_more(self.alloc, &self.first, &self.calls, i, now, kept, torn)?;
        }
        Ok(ByteList::of(now.left))
    }

    pub(crate) fn fault(&mut self) -> DiskFault
        ensures same { (self.new.first ≡ self.old.first) × (self.new.bytes ≡ self.old.bytes) × (self.new.calls ≡ self.old.calls) × (self.new.name ≡ self.old.name) }
        ensures later { self.old.faults ≤ self.new.faults }
        ensures rose { Rose self.old.faults self.new.faults }
    {
        self.faults = self.faults.saturating_add(1);
        DiskFault
    }

    // Keeps a call that changes no byte.
    fn note(&mut self, call: Call) -> Result<(), AllocError>
        requires same { seen_by self.old.bytes.items call ≡ self.old.bytes.items }
        requires within { is_within self.old.bytes.items call ≡ true }
        ensures ok { OnOk result (self.new.calls.items ≡ self.old.calls.items ++ call ∷ []) }
        ensures err { OnErr result (self.new.calls.items ≡ self.old.calls.items) }
        ensures same { (self.new.first ≡ self.old.first) × (self.new.bytes ≡ self.old.bytes) × (self.new.faults ≡ self.old.faults) × (self.new.name ≡ self.old.name) }
    {
        self.calls.push(call)?;
        Ok(())
    }

    // A write that fails: a read gives none of it, and a crash may leave any part.
    fn note_write(&mut self, at: u64, bytes: &[u8]) -> Result<(), AllocError>
        requires { at ≤ length self.old.bytes.items }
        ensures ok { OnOk result ((v : _) × (v.items ≡ bytes.now) × (self.new.calls.items ≡ self.old.calls.items ++ Wrote at v false ∷ [])) }
        ensures err { OnErr result (self.new.calls.items ≡ self.old.calls.items) }
        ensures same { (self.new.first ≡ self.old.first) × (self.new.bytes ≡ self.old.bytes) × (self.new.faults ≡ self.old.faults) × (self.new.name ≡ self.old.name) }
    {
        let call = Call::Wrote {
            at,
            bytes: Vec::from_slice(self.alloc, bytes)?,
            done: false,
        };
        self.calls.push(call)?;
        Ok(())
    }

    pub(crate) fn fail_write(&mut self, at: u64, bytes: &[u8]) -> DiskFault
        requires { at ≤ length self.old.bytes.items }
        ensures time { Elapses (length self.old.calls.items) (length self.new.calls.items) (left_at self.old.first.items self.old.calls.items) (left_at self.new.first.items self.new.calls.items) (Torn at (length bytes.now)) }
        ensures same { self.new.name ≡ self.old.name }
        ensures later { self.old.faults ≤ self.new.faults }
        ensures rose { Rose self.old.faults self.new.faults }
    {
        let Ok(()) = self.note_write(at, bytes) else {
            return self.fault();
        };
        self.fault()
    }

    fn write(&mut self, at: u64, bytes: &[u8]) -> Result<(), AllocError>
        requires { at ≤ length self.old.bytes.items }
        ensures ok { OnOk result ((v : _) × (v.items ≡ bytes.now) × (self.new.calls.items ≡ self.old.calls.items ++ Wrote at v true ∷ [])) }
        ensures bytes { OnOk result (self.new.bytes.items ≡ bytes_written self.old.bytes.items at bytes.now) }
        ensures err { OnErr result ((self.new.calls.items ≡ self.old.calls.items) × (self.new.bytes.items ≡ self.old.bytes.items)) }
        ensures same { (self.new.first ≡ self.old.first) × (self.new.faults ≡ self.old.faults) × (self.new.name ≡ self.old.name) }
    {
        let next = spliced(self.alloc, &self.bytes, at as usize, bytes)?;
        let call = Call::Wrote {
            at,
            bytes: Vec::from_slice(self.alloc, bytes)?,
            done: true,
        };
        self.calls.push(call)?;
        self.bytes = next;
        Ok(())
    }
}

impl Disk for MemDisk {
    ghost use Rattle.std.specs.Prelude.{length, true, Option, option_map, List, ℕ};
    ghost use Rattle.muck_disk.specs.inner.Replay.{left_at};
    ghost use Rattle.muck_disk.specs.inner.Memory.{left_of, Leaves, Passes, mem_seen_left};

    ghost tells = { true };

    ghost attached = { λ d. option_map (λ v. v.items) d.name };

    ghost seen = { λ d. d.bytes.items };

    ghost moment = { λ d. length d.calls.items };

    ghost images = { λ d t c. left_at d.first.items d.calls.items t c };

    ghost faults = { λ d. d.faults };

    ghost seen_left = { λ d _. mem_seen_left d };

    fn attach(&mut self, name: &str) -> Result<(), DiskFault>
        ensures name { OnOk result (option_map (λ v. v.items) self.new.name ≡ Some name.now) }
        ensures seen { self.new.bytes.items ≡ self.old.bytes.items }
        ensures time { Passes self.old self.new Same }
        ensures leaves { Leaves (left_of self.old) (left_of self.new) Same }
        ensures later { self.old.faults ≤ self.new.faults }
        ensures cause { OnErr result (Rose self.old.faults self.new.faults) }
    {
        let Ok(kept) = name.as_bytes().to_vec(self.alloc) else {
            return Err(self.fault());
        };
        if self.note(Call::Asked).is_ok() {
            self.name = Some(kept);
            return Ok(());
        }
        Err(self.fault())
    }

    fn size(&mut self) -> Result<u64, DiskFault>
        ensures size { IfOk result (λ n. n ≡ length self.old.bytes.items) }
        ensures keeps { self.new.name ≡ self.old.name }
        ensures seen { self.new.bytes.items ≡ self.old.bytes.items }
        ensures time { Passes self.old self.new Same }
        ensures leaves { Leaves (left_of self.old) (left_of self.new) Same }
        ensures later { self.old.faults ≤ self.new.faults }
        ensures cause { OnErr result (Rose self.old.faults self.new.faults) }
    {
        if self.note(Call::Asked).is_ok() {
            return Ok(self.bytes.len() as u64);
        }
        Err(self.fault())
    }

    fn read(&mut self, at: u64, buf: &mut [u8]) -> Result<usize, DiskFault>
        ensures fits { IfOk result (λ n. n ≤ length buf.new) }
        ensures count { IfOk result (λ n. n ≡ min (length self.old.bytes.items - at) (length buf.new)) }
        ensures bytes { IfOk result (λ n. take n buf.new ≡ take n (drop at self.old.bytes.items)) }
        ensures keeps { self.new.name ≡ self.old.name }
        ensures seen { self.new.bytes.items ≡ self.old.bytes.items }
        ensures time { Passes self.old self.new Same }
        ensures leaves { Leaves (left_of self.old) (left_of self.new) Same }
        ensures later { self.old.faults ≤ self.new.faults }
        ensures cause { OnErr result (Rose self.old.faults self.new.faults) }
    {
        if self.note(Call::Asked).is_ok() {
            return Ok(copied(&self.bytes, at, buf));
        }
        Err(self.fault())
    }

    fn write_at(&mut self, at: u64, bytes: &[u8]) -> Result<(), DiskFault>
        requires { at ≤ length self.old.bytes.items }
        ensures written { OnOk result (self.new.bytes.items ≡ bytes_written self.old.bytes.items at bytes.now) }
        ensures keeps { self.new.name ≡ self.old.name }
        ensures time { Passes self.old self.new (Torn at (length bytes.now)) }
        ensures leaves { OnOk result (Leaves (left_of self.old) (left_of self.new) (Torn at (length bytes.now))) }
        ensures later { self.old.faults ≤ self.new.faults }
        ensures cause { OnErr result (Rose self.old.faults self.new.faults) }
    {
        let Ok(()) = self.write(at, bytes) else {
            return Err(self.fault());
        };
        Ok(())
    }

    fn sync(&mut self) -> Result<(), DiskFault>
        ensures durable { OnOk result (Only self.new.bytes.items (left_of self.new)) }
        ensures keeps { self.new.name ≡ self.old.name }
        ensures seen { self.new.bytes.items ≡ self.old.bytes.items }
        ensures time { Passes self.old self.new Same }
        ensures leaves { OnErr result (Leaves (left_of self.old) (left_of self.new) Same) }
        ensures later { self.old.faults ≤ self.new.faults }
        ensures cause { OnErr result (Rose self.old.faults self.new.faults) }
    {
        let Ok(()) = self.note(Call::Synced { done: true }) else {
            return Err(self.fault());
        };
        Ok(())
    }
}

// Copies what is there from this place on, as much as fits.
fn copied(bytes: &[u8], at: u64, buf: &mut [u8]) -> usize
    ensures count { result ≡ min (length bytes.now - at) (length buf.new) }
    ensures bytes { take result buf.new ≡ take result (drop at bytes.now) }
{
    if at >= bytes.len() as u64 {
        return 0;
    }
    let rest = bytes.split_at(at as usize).1;
    let n = rest.len().min(buf.len());
    let (front, _) = rest.split_at(n);
    let (part, _) = buf.split_at_mut(n);
    part.copy_from_slice(front);
    n
}
