// Runs that change nothing.
use crate::run_once;
use muck_disk::{Disk, FailDisk, MemDisk};
use muck_log::{Log, LogFault};
use muck_model::NoMemory;
use std::alloc::Global;
use std::test::Fail;

const MOST: u64 = 1 << 40;

// What an empty run writes into the first file of an empty store.
const FIRST_RUN: [u8; 67] = [
    1, 0, 0, 0, 0, 0, 0, 0, 57, 77, 85, 67, 75, 1, 0, 0, 0, 0, 0, 0, 0, 1, 0, 0, 0, 0, 0, 0, 0, 1,
    0, 0, 0, 0, 0, 0, 7, 208, 0, 0, 78, 32, 0, 0, 78, 32, 0, 1, 56, 128, 0, 0, 1, 144, 0, 0, 0, 32,
    0, 0, 8, 0, 0, 0, 3, 132, 0,
];

fn is_loading(alloc: Global, bytes: &[u8]) -> Result<bool, NoMemory> {
    let mut first = MemDisk::new(alloc, bytes)?;
    let mut second = MemDisk::new(alloc, &[])?;
    Ok(Log::mount(alloc, &mut first, &mut second, MOST).is_ok())
}

fn is_damaged(alloc: Global, bytes: &[u8]) -> Result<bool, NoMemory> {
    let mut first = MemDisk::new(alloc, bytes)?;
    let mut second = MemDisk::new(alloc, &[])?;
    let log = Log::mount(alloc, &mut first, &mut second, MOST);
    Ok(matches!(
        log,
        Err(LogFault::Damaged {
            second: false,
            at: 0
        })
    ))
}

// Whether each image of a disk loads, with some bytes in what is torn.
fn all_load(alloc: Global, disk: &MemDisk) -> Result<bool, NoMemory> {
    for moment in 0..disk.moment() + 1 {
        for kept in 0..70 {
            let ones = disk.image(moment, kept, 1)?;
            let zeros = disk.image(moment, kept, 0)?;
            if !is_loading(alloc, ones.as_slice())? || !is_loading(alloc, zeros.as_slice())? {
                return Ok(false);
            }
        }
    }
    Ok(true)
}

#[test]
fn two_runs_byte_for_byte(rt: HostRuntime) -> Result<(), Fail> {
    let alloc = rt.alloc();
    let mut first = MemDisk::new(alloc, &[])?;
    let mut second = MemDisk::new(alloc, &[])?;
    assert_eq!(rt; run_once(alloc, &mut first, &mut second, MOST)?, 1);
    assert!(rt; first.bytes() == FIRST_RUN.as_slice());
    assert_eq!(rt; run_once(alloc, &mut first, &mut second, MOST)?, 2);
    assert_eq!(rt; first.bytes().len(), 133);
    assert!(rt; all_load(alloc, &first)?);
    Ok(())
}

// What a crash leaves of a write that wasn't synced: the torn byte where it went, and of what is past the old end as many bytes as are kept.
#[test]
fn images_of_a_torn_write(rt: HostRuntime) -> Result<(), Fail> {
    let alloc = rt.alloc();
    let mut disk = MemDisk::new(alloc, &[1, 2])?;
    assert!(rt; disk.write_at(1, &[7, 8, 9]).is_ok());
    assert!(rt; disk.image(0, 0, 5)?.as_slice() == [1u8, 2].as_slice());
    let written = disk.moment();
    assert!(rt; disk.image(written, 0, 5)?.as_slice() == [1u8, 5].as_slice());
    assert!(rt; disk.image(written, 1, 5)?.as_slice() == [1u8, 5, 5].as_slice());
    assert!(rt; disk.image(written, 9, 6)?.as_slice() == [1u8, 6, 6, 6].as_slice());
    assert!(rt; disk.sync().is_ok());
    let synced = disk.moment();
    assert!(rt; disk.image(synced, 0, 5)?.as_slice() == [1u8, 7, 8, 9].as_slice());
    Ok(())
}

// What the next batch may leave out: the objects that are kept, or nothing where it opens a new generation.
#[test]
fn the_base_of_a_batch(rt: HostRuntime) -> Result<(), Fail> {
    let alloc = rt.alloc();
    let mut first = MemDisk::new(alloc, &[])?;
    let mut second = MemDisk::new(alloc, &[])?;
    assert_eq!(rt; run_once(alloc, &mut first, &mut second, MOST)?, 1);
    let log = Log::mount(alloc, &mut first, &mut second, MOST)?;
    assert_eq!(rt; log.base().len(), 2);
    for n in 2..65 {
        assert_eq!(rt; run_once(alloc, &mut first, &mut second, MOST)?, n);
    }
    let log = Log::mount(alloc, &mut first, &mut second, MOST)?;
    assert_eq!(rt; log.base().len(), 0);
    Ok(())
}

#[test]
fn each_cut_of_the_file(rt: HostRuntime) -> Result<(), Fail> {
    let alloc = rt.alloc();
    for n in 0..67 {
        let part = FIRST_RUN.as_slice().split_at(n).0;
        assert_eq!(rt; is_loading(alloc, part)?, n < 2);
        assert_eq!(rt; is_damaged(alloc, part)?, n >= 2);
    }
    assert!(rt; is_loading(alloc, FIRST_RUN.as_slice())?);
    Ok(())
}

#[test]
fn a_file_grows_to_its_limit(rt: HostRuntime) -> Result<(), Fail> {
    let alloc = rt.alloc();
    let mut first = MemDisk::new(alloc, &[])?;
    let mut second = MemDisk::new(alloc, &[])?;
    assert_eq!(rt; run_once(alloc, &mut first, &mut second, 100)?, 1);
    let full = run_once(alloc, &mut first, &mut second, 100);
    assert!(rt; matches!(full, Err(LogFault::StoreFull { end: 66, more: 67 })));
    Ok(())
}

#[test]
fn a_new_generation_after_64_batches(rt: HostRuntime) -> Result<(), Fail> {
    let alloc = rt.alloc();
    let mut first = MemDisk::new(alloc, &[])?;
    let mut second = MemDisk::new(alloc, &[])?;
    for n in 1..130 {
        assert_eq!(rt; run_once(alloc, &mut first, &mut second, MOST)?, n);
        if n == 64 || n == 65 {
            assert_eq!(rt; first.bytes().len(), 4_225);
        }
        if n == 65 {
            assert_eq!(rt; second.bytes().len(), 67);
        }
        if n == 66 {
            assert_eq!(rt; second.bytes().len(), 133);
        }
    }
    assert_eq!(rt; first.bytes().len(), 4_225);
    assert_eq!(rt; first.bytes()[21], 3);
    assert_eq!(rt; first.bytes()[29], 129);
    Ok(())
}

// Each call fails in turn; whatever a crash leaves then loads, and the next run stores.
#[test]
fn each_call_fails(rt: HostRuntime) -> Result<(), Fail> {
    let alloc = rt.alloc();
    for n in 0..8 {
        let mut first = FailDisk::new(MemDisk::new(alloc, &[])?, n);
        let mut second = FailDisk::new(MemDisk::new(alloc, &[])?, 1_000);
        let _ = run_once(alloc, &mut first, &mut second, MOST);
        assert!(rt; all_load(alloc, first.disk())?);
        let _ = run_once(alloc, &mut first, &mut second, MOST)?;
        assert!(rt; all_load(alloc, first.disk())?);
    }
    Ok(())
}
