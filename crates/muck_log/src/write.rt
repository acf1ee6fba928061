// One batch on one disk.
ghost use Rattle.std.specs.Prelude.{◌≡◌, ◌⊎◌, ◌≤◌, ◌<◌, ◌+◌, ◌-◌, ◌^◌, List, ℕ, length, true, false, OnOk, OnErr};
ghost use Rattle.muck_disk.specs.Images.{Only, Torn, bytes_written};
ghost use Rattle.muck_io.specs.Faults.{Rose};
ghost use Rattle.muck_log.specs.Store.{LeavesOnly, LeavesBoth, IsDone, MayBe, MayBeAt, must_close, pick};

use muck_disk::{Disk, DiskFault};

// Writes and syncs.
fn write_synced<D: Disk>(disk: &mut D, at: u64, bytes: &[u8]) -> Result<(), DiskFault>
    requires within { D.tells ≡ true → at ≤ length (D.seen disk.old) }
    requires durable { D.tells ≡ true → Only (D.seen disk.old) (D.images disk.old (D.moment disk.old)) }
    ensures keeps { D.attached disk.new ≡ D.attached disk.old }
    ensures written { D.tells ≡ true → OnOk result (D.seen disk.new ≡ bytes_written (D.seen disk.old) at bytes.now) }
    ensures durable { D.tells ≡ true → OnOk result (Only (D.seen disk.new) (D.images disk.new (D.moment disk.new))) }
    ensures any { D.tells ≡ true → LeavesOnly D.moment D.images disk.old disk.new (Torn at (length bytes.now) (D.seen disk.old)) }
    ensures later { D.faults disk.old ≤ D.faults disk.new }
    ensures cause { OnErr result (Rose (D.faults disk.old) (D.faults disk.new)) }
{
    disk.write_at(at, bytes)?;
    disk.sync()?;
    Ok(())
}

// Writes behind a gate that is closed, and opens it.
fn put_closed<D: Disk>(disk: &mut D, place: u64, tail: &[u8]) -> Result<(), DiskFault>
    requires room { place < 2 ^ 64 - 1 }
    requires shut { D.tells ≡ true → must_close place (D.seen disk.old) ≡ false }
    requires durable { D.tells ≡ true → Only (D.seen disk.old) (D.images disk.old (D.moment disk.old)) }
    ensures keeps { D.attached disk.new ≡ D.attached disk.old }
    ensures done { D.tells ≡ true → OnOk result (IsDone place tail.now (D.seen disk.old) (D.seen disk.new)) }
    ensures durable { D.tells ≡ true → OnOk result (Only (D.seen disk.new) (D.images disk.new (D.moment disk.new))) }
    ensures any { D.tells ≡ true → LeavesOnly D.moment D.images disk.old disk.new (MayBe place tail.now (D.seen disk.old)) }
    ensures later { D.faults disk.old ≤ D.faults disk.new }
    ensures cause { OnErr result (Rose (D.faults disk.old) (D.faults disk.new)) }
{
    write_synced(disk, place + 1, tail)?;
    write_synced(disk, place, &[1])?;
    Ok(())
}

/// Writes `tail` behind the gate at `place`, and opens it. `close` says that the gate isn't closed on the disk.
pub(crate) fn put_batch<D: Disk>(
    disk: &mut D,
    place: u64,
    close: bool,
    tail: &[u8],
) -> Result<(), DiskFault>
    requires room { place < 2 ^ 64 - 1 }
    requires within { D.tells ≡ true → place ≤ length (D.seen disk.old) }
    requires close { D.tells ≡ true → close ≡ must_close place (D.seen disk.old) }
    requires durable { D.tells ≡ true → Only (D.seen disk.old) (D.images disk.old (D.moment disk.old)) }
    ensures keeps { D.attached disk.new ≡ D.attached disk.old }
    ensures done { D.tells ≡ true → OnOk result (IsDone place tail.now (D.seen disk.old) (D.seen disk.new)) }
    ensures durable { D.tells ≡ true → OnOk result (Only (D.seen disk.new) (D.images disk.new (D.moment disk.new))) }
    ensures any { D.tells ≡ true → LeavesOnly D.moment D.images disk.old disk.new (MayBe place tail.now (D.seen disk.old)) }
    ensures later { D.faults disk.old ≤ D.faults disk.new }
    ensures cause { OnErr result (Rose (D.faults disk.old) (D.faults disk.new)) }
{
    if !close {
        put_closed(disk, place, tail)?;
        return Ok(());
    }
    write_synced(disk, place, &[0])?;
    put_closed(disk, place, tail)?;
    Ok(())
}

/// The same in one of two disks.
pub(crate) fn put_target<D: Disk>(
    first: &mut D,
    second: &mut D,
    at: bool,
    place: u64,
    close: bool,
    tail: &[u8],
) -> Result<(), DiskFault>
    requires room { place < 2 ^ 64 - 1 }
    requires within { D.tells ≡ true → place ≤ length (pick at (D.seen first.old) (D.seen second.old)) }
    requires close { D.tells ≡ true → close ≡ must_close place (pick at (D.seen first.old) (D.seen second.old)) }
    requires first_durable { D.tells ≡ true → Only (D.seen first.old) (D.images first.old (D.moment first.old)) }
    requires second_durable { D.tells ≡ true → Only (D.seen second.old) (D.images second.old (D.moment second.old)) }
    ensures first_attached { D.attached first.new ≡ D.attached first.old }
    ensures second_attached { D.attached second.new ≡ D.attached second.old }
    ensures other { pick at second.new first.new ≡ pick at second.old first.old }
    ensures done { D.tells ≡ true → OnOk result (IsDone place tail.now (pick at (D.seen first.old) (D.seen second.old)) (pick at (D.seen first.new) (D.seen second.new))) }
    ensures first_durable { D.tells ≡ true → OnOk result (Only (D.seen first.new) (D.images first.new (D.moment first.new))) }
    ensures second_durable { D.tells ≡ true → OnOk result (Only (D.seen second.new) (D.images second.new (D.moment second.new))) }
    ensures any { D.tells ≡ true → LeavesBoth D.moment D.images first.old second.old first.new second.new (MayBeAt at place tail.now (D.seen first.old) (D.seen second.old)) }
    ensures first_later { D.faults first.old ≤ D.faults first.new }
    ensures second_later { D.faults second.old ≤ D.faults second.new }
    ensures cause { OnErr result (Rose (D.faults first.old) (D.faults first.new) ⊎ Rose (D.faults second.old) (D.faults second.new)) }
{
    if at {
        put_batch(second, place, close, tail)?;
        return Ok(());
    }
    put_batch(first, place, close, tail)?;
    Ok(())
}
