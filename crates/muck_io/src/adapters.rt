// A source, a sink and a clock over those of std. They tell no bytes and no answers.
ghost use Rattle.std.specs.Prelude.{◌≡◌, None};
ghost use Rattle.std.specs.Io.{ReadsAtMost, WritesAtMost};
ghost use Rattle.muck_io.specs.inner.Clock.{Answers};

use crate::{Clock, Got, Put, Sink, Source};
use std::io::{Error, ErrorKind, Read, Result, Write};
use std::marker::Model;
use std::time::{SystemTime, UNIX_EPOCH};

// How often a call that a signal interrupts is made.
const TRIES: u32 = 1000;

// One read, made again where a signal interrupts it.
fn read_again<R: Read>(reader: &mut R, buf: &mut [u8]) -> Result<usize>
    ensures bound { ReadsAtMost result buf.new }
{
    for _ in 0..TRIES {
        match reader.read(buf) {
            Ok(n) => return Ok(n),
            Err(error) => {
                if error.kind() != ErrorKind::Interrupted {
                    return Err(error);
                }
            }
        }
    }
    Err(Error::from(ErrorKind::Interrupted))
}

// One write, made again where a signal interrupts it.
fn write_again<W: Write>(writer: &mut W, bytes: &[u8]) -> Result<usize>
    ensures bound { WritesAtMost result bytes.now }
{
    for _ in 0..TRIES {
        match writer.write(bytes) {
            Ok(n) => return Ok(n),
            Err(error) => {
                if error.kind() != ErrorKind::Interrupted {
                    return Err(error);
                }
            }
        }
    }
    Err(Error::from(ErrorKind::Interrupted))
}

/// A source over a reader, as the standard input. An error of the reader is a fault, but for a read that a
/// signal interrupts, which is made again. Contracts see it as its count of faults.
#[derive(Drop)]
pub struct ReaderSource<R: Read + Drop> {
    reader: R,
    faults: u64,
}

impl<R: Read + Drop> Model for ReaderSource<R> {
    ghost use Rattle.std.specs.Prelude.{ℕ};

    ghost Value = { ℕ };

    ghost view = { λ s. s.faults };
}

impl<R: Read + Drop> ReaderSource<R> {
    /// A source over this reader, without a fault so far.
    pub fn new(reader: R) -> Self
        ensures { result ≡ 0 }
    {
        ReaderSource { reader, faults: 0 }
    }
}

impl<R: Read + Drop> Source for ReaderSource<R> {
    ghost left = { λ _. None };

    ghost faults = { λ s. s };

    fn read(&mut self, buf: &mut [u8]) -> Got {
        match read_again(&mut self.reader, buf) {
            Ok(0) => Got::End,
            Ok(n) => Got::Bytes(n),
            Err(_) => {
                self.faults = self.faults.saturating_add(1);
                Got::Failed
            }
        }
    }
}

/// A sink over a writer, as the standard output. An error of the writer is a fault, but for a write that a
/// signal interrupts, which is made again; and so is a write that takes nothing of a piece that has bytes.
/// Contracts see it as its count of faults.
#[derive(Drop)]
pub struct WriterSink<W: Write + Drop> {
    writer: W,
    faults: u64,
}

impl<W: Write + Drop> Model for WriterSink<W> {
    ghost use Rattle.std.specs.Prelude.{ℕ};

    ghost Value = { ℕ };

    ghost view = { λ s. s.faults };
}

impl<W: Write + Drop> WriterSink<W> {
    /// A sink over this writer, without a fault so far.
    pub fn new(writer: W) -> Self
        ensures { result ≡ 0 }
    {
        WriterSink { writer, faults: 0 }
    }
}

impl<W: Write + Drop> Sink for WriterSink<W> {
    ghost written = { λ _. None };

    ghost faults = { λ s. s };

    fn write(&mut self, bytes: &[u8]) -> Put {
        match write_again(&mut self.writer, bytes) {
            Ok(n) => {
                if n == 0 && !bytes.is_empty() {
                    self.faults = self.faults.saturating_add(1);
                }
                Put::Bytes(n)
            }
            Err(_) => {
                self.faults = self.faults.saturating_add(1);
                Put::Failed
            }
        }
    }
}

/// A clock over the system's: seconds since the beginning of 1970. Where the system doesn't tell the
/// time, or tells one before 1970, it repeats its last answer, or 0 where it has none yet. Contracts
/// see it as its last answer.
#[derive(Drop)]
pub struct SystemClock<C: std::rt::Clock + Drop> {
    clock: C,
    last: u64,
}

impl<C: std::rt::Clock + Drop> Model for SystemClock<C> {
    ghost use Rattle.std.specs.Prelude.{ℕ};

    ghost Value = { ℕ };

    ghost view = { λ c. c.last };
}

impl<C: std::rt::Clock + Drop> SystemClock<C> {
    /// A clock over this handle of the system's clock, without an answer so far.
    pub fn new(clock: C) -> Self
        ensures { result ≡ 0 }
    {
        SystemClock { clock, last: 0 }
    }
}

impl<C: std::rt::Clock + Drop> Clock for SystemClock<C> {
    ghost answers = { λ _. None };

    fn now(&mut self) -> u64
        ensures answers { Answers None None result }
        ensures last { self.new ≡ result }
    {
        if let Ok(time) = SystemTime::now(&self.clock) {
            if let Ok(since) = time.duration_since(UNIX_EPOCH) {
                self.last = since.as_secs();
            }
        }
        self.last
    }
}
