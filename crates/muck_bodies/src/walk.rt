// A body, found by its number.
ghost use Rattle.std.specs.Prelude.{◌≡◌, ◌≤◌, ◌<◌, ◌+◌, ◌-◌, ◌^◌, take, drop, true, min, IfOk, IsErrOf, option_map};
ghost use Rattle.muck_io.specs.Faults.{Rose};
ghost use Rattle.muck_log.specs.Store.{LeavesOnly};
ghost use Rattle.muck_bodies.specs.Bodies.{bodies_of, body_numbered};

use crate::BodyFault;
use crate::head::read_head;
use muck_disk::Disk;
use std::alloc::Global;

fn less(n: usize, left: u64) -> usize
    ensures { result ≡ min n left }
{
    if (n as u64) < left { n } else { left as usize }
}

// So many bytes from a place on, or as many as there are.
fn read_part<D: Disk>(alloc: Global, disk: &mut D, at: u64, size: u64) -> Result<Vec<u8>, BodyFault>
    requires within { at + size < 2 ^ 64 }
    ensures bytes { D.tells ≡ true → IfOk result (λ v. v.items ≡ take size (drop at (D.seen disk.old))) }
    ensures attached { D.attached disk.new ≡ D.attached disk.old }
    ensures seen { D.tells ≡ true → D.seen disk.new ≡ D.seen disk.old }
    ensures any { D.tells ≡ true → LeavesOnly D.moment D.images disk.old disk.new (D.images disk.old (D.moment disk.old)) }
    ensures later { D.faults disk.old ≤ D.faults disk.new }
    ensures cause { IsErrOf result BodyFault.DiskFault → Rose (D.faults disk.old) (D.faults disk.new) }
{
    let mut bytes = Vec::new(alloc);
    let mut got: u64 = 0;
    while got < size {
        let mut buf = [0u8; 4096];
        let n = disk.read(at + got, &mut buf)?;
        let n = less(n, size - got);
        if n == 0 {
            return Ok(bytes);
        }
        bytes.extend_from_slice(buf.split_at(n).0)?;
        got += n as u64;
    }
    Ok(bytes)
}

/// The body of the batch of this number in the file of a disk, of the first one where there are several; or none. Of the bodies before it the heads alone are read.
/// `DiskFault` comes only where the disk's count of faults rose. Nothing is written.
pub fn body<D: Disk>(alloc: Global, disk: &mut D, number: u64) -> Result<Option<Vec<u8>>, BodyFault>
    ensures found { D.tells ≡ true → IfOk result (λ b. option_map (λ v. v.items) b ≡ body_numbered number (bodies_of (D.seen disk.old))) }
    ensures attached { D.attached disk.new ≡ D.attached disk.old }
    ensures seen { D.tells ≡ true → D.seen disk.new ≡ D.seen disk.old }
    ensures any { D.tells ≡ true → LeavesOnly D.moment D.images disk.old disk.new (D.images disk.old (D.moment disk.old)) }
    ensures later { D.faults disk.old ≤ D.faults disk.new }
    ensures cause { IsErrOf result BodyFault.DiskFault → Rose (D.faults disk.old) (D.faults disk.new) }
{
    let end = disk.size()?;
    let mut at: u64 = 0;
    while at < end {
        let Some(head) = read_head(disk, at, end)? else {
            return Ok(None);
        };
        if head.number == number {
            let bytes = read_part(alloc, disk, at + 9, head.size)?;
            return Ok(Some(bytes));
        }
        at += 9 + head.size;
    }
    Ok(None)
}
