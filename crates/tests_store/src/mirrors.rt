// A mirror that is fed batches without a record, and the script by which one follows a store of two of them.
use muck_disk::MemDisk;
use muck_follow::{ScriptFault, follow, read};
use muck_io::MemSink;
use muck_mirror::{Fed, Mirror};
use std::alloc::Global;
use std::test::Fail;

// The body of a batch of generation 1 that has no record, without the last byte of its number: that one stands at 20.
const BODY: [u8; 57] = [
    77, 85, 67, 75, 1, 0, 0, 0, 0, 0, 0, 0, 1, 0, 0, 0, 0, 0, 0, 0, 0, 0, 0, 0, 0, 0, 0, 7, 208, 0,
    0, 78, 32, 0, 0, 78, 32, 0, 1, 56, 128, 0, 0, 1, 144, 0, 0, 0, 32, 0, 0, 8, 0, 0, 0, 3, 132,
];

// An open gate, and the length of such a body.
const GATE: [u8; 9] = [1, 0, 0, 0, 0, 0, 0, 0, 57];

fn body(alloc: Global, number: u8) -> Option<Vec<u8>> {
    let mut bytes = Vec::from_slice(alloc, BODY.as_slice().split_at(20).0).ok()?;
    bytes.push(number).ok()?;
    bytes
        .extend_from_slice(BODY.as_slice().split_at(21).1)
        .ok()?;
    Some(bytes)
}

// A file of two batches, behind which the gate is closed.
fn file(alloc: Global) -> Option<Vec<u8>> {
    let mut bytes = Vec::new(alloc);
    for number in 1..3u8 {
        bytes.extend_from_slice(GATE.as_slice()).ok()?;
        bytes.extend_from_slice(&body(alloc, number)?).ok()?;
    }
    bytes.push(0).ok()?;
    Some(bytes)
}

#[test]
fn bodies_in_any_order(rt: HostRuntime) -> Result<(), Fail> {
    let alloc = rt.alloc();
    let mut mirror = Mirror::new(alloc, 1, 1).ok().ok_or("a mirror")?;
    let cut = mirror.feed(b"M").ok().ok_or("an answer")?;
    assert!(rt; matches!(cut, Fed::Strange { at: 1 }));
    for number in 2..66u8 {
        let bytes = body(alloc, number).ok_or("a body")?;
        let fed = mirror.feed(&bytes).ok().ok_or("an answer")?;
        assert!(rt; matches!(fed, Fed::Early));
    }
    let more = body(alloc, 66).ok_or("a body")?;
    let full = mirror.feed(&more).ok().ok_or("an answer")?;
    assert!(rt; matches!(full, Fed::Full));
    let kept = body(alloc, 2).ok_or("a body")?;
    let known = mirror.feed(&kept).ok().ok_or("an answer")?;
    assert!(rt; matches!(known, Fed::Known));
    let first = body(alloc, 1).ok_or("a body")?;
    let applied = mirror.feed(&first).ok().ok_or("an answer")?;
    assert!(rt; matches!(applied, Fed::Applied { upto: 65 }));
    Ok(())
}

#[test]
fn a_script_follows_a_store(rt: HostRuntime) -> Result<(), Fail> {
    let alloc = rt.alloc();
    let bytes = file(alloc).ok_or("a file")?;
    let mut first = MemDisk::new(alloc, &bytes).ok().ok_or("a disk")?;
    let mut second = MemDisk::new(alloc, b"").ok().ok_or("a disk")?;
    let script = read(alloc, b"# late\nfeed 2\nfeed 1\n\nfeed 1\nfeed 9")
        .ok()
        .ok_or("a script")?;
    let mut out = MemSink::new(alloc, Vec::new(alloc));
    let done = follow(alloc, script.as_slice(), &mut first, &mut second, &mut out);
    assert!(rt; done.is_ok());
    assert!(rt; out.bytes() == b"early\napplied 2\nknown\nno batch\n".as_slice());
    Ok(())
}

#[test]
fn a_line_outside_the_grammar(rt: HostRuntime) -> Result<(), Fail> {
    let alloc = rt.alloc();
    assert!(rt;
        matches!(
            read(alloc, b"feed 1\nfeed 0\n"),
            Err(ScriptFault::BadScript { line: 2 })
        )
    );
    assert!(rt;
        matches!(
            read(alloc, b"feed 18446744073709551616"),
            Err(ScriptFault::BadScript { line: 1 })
        )
    );
    assert!(rt; read(alloc, b"feed 18446744073709551615").is_ok());
    Ok(())
}
