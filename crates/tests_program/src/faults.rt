// Runs on a store in memory, of which one write of the transcript or one call of the first file fails; and how the causes are written.
use muck_disk::{FailDisk, MemDisk};
use muck_io::{MemSink, MemSource};
use muck_run::run;
use muck_why::Why;
use std::alloc::Global;
use std::test::Fail;

const HELLO: &str = "open 1\nsend 1 connect One potrzebie\nsend 1 \"hi\nsend 1 QUIT\n";

// What that script writes, a write each.
const SAID: [&str; 5] = [
    "1< Use: connect NAME PASSWORD, WHO or QUIT.\n",
    "1< Room Zero(#0R)\n",
    "1< You say, \"hi\"\n",
    "1< Come back later!\n",
    "1 closed\n",
];

// A call of a file that no run comes to.
const NEVER: u64 = 1_000;

// A file in memory of these bytes, of which the call of this number, from 0 on, fails.
fn disk_of(alloc: Global, bytes: &[u8], call: u64) -> Result<FailDisk, Fail> {
    Ok(FailDisk::new(MemDisk::new(alloc, bytes)?, call))
}

// The status of a run on two files.
fn status_of(
    alloc: Global,
    source: &mut MemSource,
    sink: &mut MemSink,
    first: &mut FailDisk,
    second: &mut FailDisk,
) -> u8 {
    let (why, _) = run(alloc, "w", source, sink, first, second);
    why.status()
}

// The status of a run on files of these bytes, of whose calls none fails.
fn again(
    alloc: Global,
    source: &mut MemSource,
    sink: &mut MemSink,
    first: &[u8],
    second: &[u8],
) -> Result<u8, Fail> {
    let mut first = disk_of(alloc, first, NEVER)?;
    let mut second = disk_of(alloc, second, NEVER)?;
    Ok(status_of(alloc, source, sink, &mut first, &mut second))
}

// The status of a run on a new store whose first file fails this call, and that of one behind it on what it left; `said` gets what the first one wrote.
fn twice(
    alloc: Global,
    source: &mut MemSource,
    sink: &mut MemSink,
    call: u64,
    said: &mut Vec<u8>,
) -> Result<(u8, u8), Fail> {
    let mut first = disk_of(alloc, &[], call)?;
    let mut second = disk_of(alloc, &[], NEVER)?;
    let status = status_of(alloc, source, sink, &mut first, &mut second);
    said.extend_from_slice(sink.bytes())?;
    // (the source has come to its end)
    let behind = again(
        alloc,
        source,
        sink,
        first.disk().bytes(),
        second.disk().bytes(),
    )?;
    Ok((status, behind))
}

// The status of a run of this script whose sink fails the write of this number, from 1 on, and whose first file the call of that
// number, from 0 on; and the status of an empty run on what it left. `said` gets what it wrote.
fn ended(
    alloc: Global,
    script: &str,
    write: u64,
    call: u64,
    said: &mut Vec<u8>,
) -> Result<(u8, u8), Fail> {
    let failing = Vec::from_slice(alloc, &[write])?;
    let mut sink = MemSink::new(alloc, failing);
    let mut source = MemSource::new(script.as_bytes().to_vec(alloc)?, Vec::new(alloc));
    twice(alloc, &mut source, &mut sink, call, said)
}

// The writes before the one that fails stand, and nothing is written after it.
#[test]
fn each_write_fails(rt: HostRuntime) -> Result<(), Fail> {
    let mut stands = Vec::new(rt.alloc());
    for (write, piece) in (1u64..).zip(SAID) {
        let mut said = Vec::new(rt.alloc());
        let statuses = ended(rt.alloc(), HELLO, write, NEVER, &mut said)?;
        assert_eq!(rt; statuses, (5, 0), "write {write}");
        assert_eq!(rt; said.as_slice(), stands.as_slice(), "write {write}");
        stands.extend_from_slice(piece.as_bytes())?;
    }
    Ok(())
}

// The file is opened, synced and read, and the last dump writes and syncs three times; of those the second sync is call 6. A dump in
// the midst of a run may fail: the last one mounts the store again. Behind a dump that was stored it writes and syncs twice.
#[test]
fn each_disk_call_fails(rt: HostRuntime) -> Result<(), Fail> {
    for (script, statuses) in [(HELLO, "666666666000"), ("dump\n", "6660000006666000")] {
        for (call, status) in (0u64..).zip(statuses.bytes()) {
            let mut said = Vec::new(rt.alloc());
            let (first, behind) = ended(rt.alloc(), script, 0, call, &mut said)?;
            assert_eq!(rt;
                (first.saturating_add(b'0'), behind),
                (status, 0),
                "call {call}"
            );
        }
    }
    Ok(())
}

// Of the causes those that no run of the other tests comes to.
#[test]
fn causes_are_shown(rt: HostRuntime) -> Result<(), Fail> {
    let cases = [
        (Why::NoMemory, "NoMemory"),
        (Why::ListenFault, "ListenFault"),
        (Why::StoreFull { end: 9, more: 8 }, "StoreFull 9 8"),
        (
            Why::Spent {
                turns: 4_611_686_018_427_387_904,
            },
            "Spent 4611686018427387904",
        ),
    ];
    for (why, text) in cases {
        let shown = format!(in rt.alloc(); "{why}")?;
        assert_eq!(rt; shown.as_str(), text);
    }
    Ok(())
}
