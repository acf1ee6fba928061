// What the adapters hand on of readers, writers and clocks that fail.
ghost use Rattle.std.specs.Prelude.{◌≤◌, IfOk};

use crate::first_wrong;
use muck_io::{
    Clock, Got, ListClock, NeverSink, NeverSource, Put, ReadFault, ReaderSource, Sink, Source,
    SystemClock, WriteFailed, WriterSink, read_all, write_all,
};
use std::alloc::Global;
use std::io;
use std::io::{ErrorKind, Read, Write};
use std::test::Fail;
use std::time::Duration;

// A reader and a writer whose first call moves one byte, whose second fails, and whose others move nothing.
#[derive(Drop)]
struct Faulty {
    calls: u8,
}

impl Faulty {
    // How many bytes this call moves, where there is room for one.
    fn step(&mut self, room: usize) -> io::Result<usize>
        ensures { IfOk result (λ n. n ≤ room) }
    {
        self.calls = self.calls.saturating_add(1);
        match self.calls {
            1 => Ok(room.min(1)),
            2 => Err(ErrorKind::Other.into()),
            _ => Ok(0),
        }
    }
}

impl Read for Faulty {
    fn read(&mut self, buf: &mut [u8]) -> io::Result<usize> {
        let n = self.step(buf.len())?;
        buf[..n].fill(b'x');
        Ok(n)
    }
}

impl Write for Faulty {
    fn write(&mut self, buf: &[u8]) -> io::Result<usize> {
        self.step(buf.len())
    }

    fn flush(&mut self) -> io::Result<()> {
        Ok(())
    }
}

// How many bytes a reading gives, if it doesn't fail.
fn count<S: Source>(alloc: Global, source: &mut S) -> Option<usize> {
    match read_all(alloc, source, 100) {
        Ok(bytes) => Some(bytes.len()),
        Err(ReadFault::Failed) => None,
        Err(ReadFault::NoMemory) => Some(usize::MAX),
    }
}

#[test]
fn adapters_hand_on(rt: HostRuntime) -> Result<(), Fail> {
    let mut failing = ReaderSource::new(Faulty { calls: 0 });
    let mut reader = ReaderSource::new(Faulty { calls: 0 });
    let mut writer = WriterSink::new(Faulty { calls: 0 });
    let mut buf = [0u8; 4];
    let rows = [
        count(rt.alloc(), &mut failing) == None,
        count(rt.alloc(), &mut failing) == Some(0),
        reader.read(&mut buf) == Got::Bytes(1),
        buf == *b"x\0\0\0",
        writer.write(b"ab") == Put::Bytes(1),
        writer.write(b"ab") == Put::Failed,
        write_all(&mut writer, b"ab") == Err(WriteFailed),
        count(rt.alloc(), &mut NeverSource) == Some(0),
        write_all(&mut NeverSink, b"abc") == Ok(()),
    ];
    assert_eq!(rt; first_wrong(&rows), None);
    Ok(())
}

// The answer of a clock, through its bound.
fn time_of<C: Clock>(clock: &mut C) -> u64 {
    clock.now()
}

// A clock of the system that tells these seconds, or none.
#[derive(Drop)]
struct Told(Option<u64>);

impl std::rt::Clock for Told {
    fn monotonic(&self) -> io::Result<Duration> {
        self.since_1970()
    }

    fn since_1970(&self) -> io::Result<Duration> {
        match self.0 {
            Some(seconds) => Ok(Duration::from_secs(seconds)),
            None => Err(ErrorKind::Other.into()),
        }
    }
}

#[test]
fn clocks_answer(rt: HostRuntime) -> Result<(), Fail> {
    let mut listed = ListClock::new([5, 9, 7].to_vec(rt.alloc())?);
    let rows = [
        time_of(&mut listed) == 5,
        time_of(&mut listed) == 9,
        time_of(&mut listed) == 7,
        time_of(&mut listed) == 7,
        time_of(&mut ListClock::new(Vec::new(rt.alloc()))) == 0,
        time_of(&mut SystemClock::new(Told(Some(77)))) == 77,
        time_of(&mut SystemClock::new(Told(None))) == 0,
        time_of(&mut SystemClock::new(&rt)) > 1_600_000_000,
    ];
    assert_eq!(rt; first_wrong(&rows), None);
    Ok(())
}
