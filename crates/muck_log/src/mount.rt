// Mounting.
ghost use Rattle.std.specs.Prelude.{◌≡◌, ◌⊎◌, ◌≤◌, ◌<◌, ◌+◌, ◌-◌, ◌^◌, min, List, ℕ, length, take, drop, true, false, IfOk, OnOk, IfErr, OnErr, IsErrOf};
ghost use Rattle.muck_disk.specs.Images.{Only};
ghost use Rattle.muck_io.specs.Faults.{Rose};
ghost use Rattle.muck_log.specs.File.{gate_at, begin, run, reached, is_gate_open};
ghost use Rattle.muck_log.specs.Store.{LeavesOnly, LeavesBoth, must_close, pick};
ghost use Rattle.muck_log.specs.World.{IsFine, is_fine};
ghost use Rattle.muck_log.specs.inner.Mount.{IsLook, IsFirst, choice, IsMountedAs, IsMountFault};

use crate::body::{head_of, word_at};
use crate::reader::Reader;
use crate::{Log, LogFault};
use muck_disk::{Disk, DiskFault};
use std::alloc::{AllocError, Global};

// How a file begins.
#[derive(Clone, Copy, Drop)]
pub enum First {
    Shut,
    Bad,
    Open(u64),
}

// The first 34 bytes of a file, judged.
#[derive(Clone, Copy, Drop)]
pub struct Look {
    pub first: First,
    pub close: bool,
}

#[tactic(auto, unfolding(crate::specs::Store::must_close, crate::specs::File::is_gate_open, crate::specs::File::header))]
fn look_at(bytes: &[u8]) -> Look
    ensures { IsLook result bytes.now }
{
    if bytes.is_empty() {
        return Look {
            first: First::Shut,
            close: true,
        };
    }
    if bytes[0] != 1 {
        return Look {
            first: First::Shut,
            close: false,
        };
    }
    if bytes.len() < 2 {
        return Look {
            first: First::Shut,
            close: true,
        };
    }
    Look {
        first: first_of(bytes),
        close: true,
    }
}

#[tactic(auto, unfolding(crate::specs::File::header))]
fn first_of(bytes: &[u8]) -> First
    requires { is_gate_open bytes.now ≡ true }
    ensures { IsFirst result bytes.now }
{
    if bytes.len() < 34 || word_at(bytes, 1) < 25 {
        return First::Bad;
    }
    match head_of(bytes.split_at(9).1.split_at(25).0) {
        Some(head) => First::Open(head.generation),
        None => First::Bad,
    }
}

// What two files are, by their first bytes.
#[derive(Clone, Copy, Drop)]
pub enum Choice {
    Damaged(bool),
    Empty,
    Load(bool, u64),
}

fn choose(a: First, b: First) -> Choice
    ensures { result ≡ choice a b }
{
    match (a, b) {
        (First::Bad, _) => Choice::Damaged(false),
        (_, First::Bad) => Choice::Damaged(true),
        (First::Shut, First::Shut) => Choice::Empty,
        (First::Open(g), First::Shut) => Choice::Load(false, g),
        (First::Shut, First::Open(h)) => Choice::Load(true, h),
        (First::Open(g), First::Open(h)) => {
            if g == h {
                Choice::Damaged(true)
            } else if h < g {
                Choice::Load(false, g)
            } else {
                Choice::Load(true, h)
            }
        }
    }
}

// Reads the first bytes.
fn read_first<D: Disk>(disk: &mut D) -> Result<Look, DiskFault>
    ensures look { D.tells ≡ true → IfOk result (λ look. IsLook look (D.seen disk.old)) }
    ensures attached { D.attached disk.new ≡ D.attached disk.old }
    ensures seen { D.tells ≡ true → D.seen disk.new ≡ D.seen disk.old }
    ensures any { D.tells ≡ true → LeavesOnly D.moment D.images disk.old disk.new (D.images disk.old (D.moment disk.old)) }
    ensures later { D.faults disk.old ≤ D.faults disk.new }
    ensures cause { OnErr result (Rose (D.faults disk.old) (D.faults disk.new)) }
{
    let mut buf = [0u8; 34];
    let n = disk.read(0, &mut buf)?;
    Ok(look_at(buf.split_at(n).0))
}

fn buffer(alloc: Global) -> Result<Vec<u8>, AllocError>
    ensures { IfOk result (λ v. 0 < length v.items) }
{
    vec![in alloc; 0u8; 4096]
}

// One piece of what is left, none at the end alone.
fn piece<D: Disk>(disk: &mut D, at: u64, size: u64, buf: &mut [u8]) -> Result<usize, DiskFault>
    requires some { 0 < length buf.old }
    requires left { at < size }
    ensures fits { IfOk result (λ n. n ≤ length buf.new) }
    ensures within { IfOk result (λ n. n ≤ size - at) }
    ensures bytes { D.tells ≡ true → size ≡ length (D.seen disk.old) → IfOk result (λ n. (0 < n) × (take n buf.new ≡ take n (drop at (D.seen disk.old)))) }
    ensures attached { D.attached disk.new ≡ D.attached disk.old }
    ensures seen { D.tells ≡ true → D.seen disk.new ≡ D.seen disk.old }
    ensures any { D.tells ≡ true → LeavesOnly D.moment D.images disk.old disk.new (D.images disk.old (D.moment disk.old)) }
    ensures later { D.faults disk.old ≤ D.faults disk.new }
    ensures cause { OnErr result (Rose (D.faults disk.old) (D.faults disk.new)) }
{
    let n = disk.read(at, buf)?;
    let left = size - at;
    if n as u64 > left {
        return Ok(left as usize);
    }
    Ok(n)
}

// Reads a file from its start to where its row of batches ends.
fn read_all<D: Disk>(alloc: Global, disk: &mut D, generation: u64) -> Result<Reader, LogFault>
    ensures reads { D.tells ≡ true → IfOk result (λ r. r ≡ run (gate_at 0 (begin generation)) (D.seen disk.old)) }
    ensures err { IfErr result (λ e. (e ≡ LogFault.NoMemory) ⊎ (e ≡ LogFault.DiskFault)) }
    ensures attached { D.attached disk.new ≡ D.attached disk.old }
    ensures seen { D.tells ≡ true → D.seen disk.new ≡ D.seen disk.old }
    ensures any { D.tells ≡ true → LeavesOnly D.moment D.images disk.old disk.new (D.images disk.old (D.moment disk.old)) }
    ensures later { D.faults disk.old ≤ D.faults disk.new }
    ensures cause { IsErrOf result LogFault.DiskFault → Rose (D.faults disk.old) (D.faults disk.new) }
{
    let mut reader = Reader::new(alloc, generation)?;
    let mut buf = buffer(alloc)?;
    let size = disk.size()?;
    let mut at: u64 = 0;
    while at < size && !reader.is_over() {
        let n = piece(disk, at, size, &mut buf)?;
        if n == 0 {
            return Ok(reader);
        }
        reader.feed(buf.split_at(n).0)?;
        at += n as u64;
    }
    Ok(reader)
}

// Reads one of two files.
fn read_chosen<D: Disk>(
    alloc: Global,
    first: &mut D,
    second: &mut D,
    at: bool,
    generation: u64,
) -> Result<Reader, LogFault>
    ensures reads { D.tells ≡ true → IfOk result (λ r. r ≡ run (gate_at 0 (begin generation)) (pick at (D.seen first.old) (D.seen second.old))) }
    ensures err { IfErr result (λ e. (e ≡ LogFault.NoMemory) ⊎ (e ≡ LogFault.DiskFault)) }
    ensures first_attached { D.attached first.new ≡ D.attached first.old }
    ensures second_attached { D.attached second.new ≡ D.attached second.old }
    ensures first_seen { D.tells ≡ true → D.seen first.new ≡ D.seen first.old }
    ensures second_seen { D.tells ≡ true → D.seen second.new ≡ D.seen second.old }
    ensures first_any { D.tells ≡ true → LeavesOnly D.moment D.images first.old first.new (D.images first.old (D.moment first.old)) }
    ensures second_any { D.tells ≡ true → LeavesOnly D.moment D.images second.old second.new (D.images second.old (D.moment second.old)) }
    ensures first_later { D.faults first.old ≤ D.faults first.new }
    ensures second_later { D.faults second.old ≤ D.faults second.new }
    ensures cause { IsErrOf result LogFault.DiskFault → Rose (D.faults first.old) (D.faults first.new) ⊎ Rose (D.faults second.old) (D.faults second.new) }
{
    if at {
        return Ok(read_all(alloc, second, generation)?);
    }
    Ok(read_all(alloc, first, generation)?)
}

impl Log {
    /// The log of the store that two disks hold, which grows to at most `most` bytes a file. Both are synced first, and
    /// nothing is written.
    ///
    /// `Damaged` comes exactly where the files are outside the format, with the gate of the first batch that is;
    /// `DiskFault` only where a disk's count of faults rose.
    pub fn mount<D: Disk>(
        alloc: Global,
        first: &mut D,
        second: &mut D,
        most: u64,
    ) -> Result<Log, LogFault>
        requires { most < 2 ^ 63 }
        ensures ok { D.tells ≡ true → IfOk result (λ log. IsMountedAs D.seen D.moment D.images most log first.new second.new) }
        ensures fine { IfOk result (λ log. is_fine log.chosen.held.world.objects log.chosen.held.world.tune ≡ true) }
        ensures err { D.tells ≡ true → IfErr result (λ fault. IsMountFault (D.seen first.old) (D.seen second.old) fault) }
        ensures first_attached { D.attached first.new ≡ D.attached first.old }
        ensures second_attached { D.attached second.new ≡ D.attached second.old }
        ensures first_seen { D.tells ≡ true → D.seen first.new ≡ D.seen first.old }
        ensures second_seen { D.tells ≡ true → D.seen second.new ≡ D.seen second.old }
        ensures first_any { D.tells ≡ true → LeavesOnly D.moment D.images first.old first.new (D.images first.old (D.moment first.old)) }
        ensures second_any { D.tells ≡ true → LeavesOnly D.moment D.images second.old second.new (D.images second.old (D.moment second.old)) }
        ensures first_later { D.faults first.old ≤ D.faults first.new }
        ensures second_later { D.faults second.old ≤ D.faults second.new }
        ensures cause { IsErrOf result LogFault.DiskFault → Rose (D.faults first.old) (D.faults first.new) ⊎ Rose (D.faults second.old) (D.faults second.new) }
    {
        synced(first)?;
        synced(second)?;
        Ok(mount_synced(alloc, first, second, most)?)
    }
}

fn synced<D: Disk>(disk: &mut D) -> Result<(), DiskFault>
    ensures durable { D.tells ≡ true → OnOk result (Only (D.seen disk.new) (D.images disk.new (D.moment disk.new))) }
    ensures attached { D.attached disk.new ≡ D.attached disk.old }
    ensures seen { D.tells ≡ true → D.seen disk.new ≡ D.seen disk.old }
    ensures any { D.tells ≡ true → LeavesOnly D.moment D.images disk.old disk.new (D.images disk.old (D.moment disk.old)) }
    ensures later { D.faults disk.old ≤ D.faults disk.new }
    ensures cause { OnErr result (Rose (D.faults disk.old) (D.faults disk.new)) }
{
    disk.sync()?;
    Ok(())
}

fn other_of(at: bool, a: bool, b: bool) -> bool
    ensures { result ≡ pick at b a }
{
    if at { a } else { b }
}

fn mount_synced<D: Disk>(
    alloc: Global,
    first: &mut D,
    second: &mut D,
    most: u64,
) -> Result<Log, LogFault>
    requires limit { most < 2 ^ 63 }
    requires first_durable { D.tells ≡ true → Only (D.seen first.old) (D.images first.old (D.moment first.old)) }
    requires second_durable { D.tells ≡ true → Only (D.seen second.old) (D.images second.old (D.moment second.old)) }
    ensures ok { D.tells ≡ true → IfOk result (λ log. IsMountedAs D.seen D.moment D.images most log first.new second.new) }
    ensures fine { IfOk result (λ log. IsFine log.chosen.held.world) }
    ensures err { D.tells ≡ true → IfErr result (λ fault. IsMountFault (D.seen first.old) (D.seen second.old) fault) }
    ensures first_attached { D.attached first.new ≡ D.attached first.old }
    ensures second_attached { D.attached second.new ≡ D.attached second.old }
    ensures first_seen { D.tells ≡ true → D.seen first.new ≡ D.seen first.old }
    ensures second_seen { D.tells ≡ true → D.seen second.new ≡ D.seen second.old }
    ensures first_any { D.tells ≡ true → LeavesOnly D.moment D.images first.old first.new (D.images first.old (D.moment first.old)) }
    ensures second_any { D.tells ≡ true → LeavesOnly D.moment D.images second.old second.new (D.images second.old (D.moment second.old)) }
    ensures first_later { D.faults first.old ≤ D.faults first.new }
    ensures second_later { D.faults second.old ≤ D.faults second.new }
    ensures cause { IsErrOf result LogFault.DiskFault → Rose (D.faults first.old) (D.faults first.new) ⊎ Rose (D.faults second.old) (D.faults second.new) }
{
    let a = read_first(first)?;
    let b = read_first(second)?;
    match choose(a.first, b.first) {
        Choice::Damaged(at) => Err(LogFault::Damaged { second: at, at: 0 }),
        Choice::Empty => Ok(Log::empty(alloc, a.close, b.close, most)?),
        Choice::Load(at, generation) => {
            let reader = read_chosen(alloc, first, second, at, generation)?;
            let other_close = other_of(at, a.close, b.close);
            match Log::loaded(alloc, reader, at, other_close, most) {
                Ok(log) => Ok(log),
                Err(fault) => Err(fault),
            }
        }
    }
}
