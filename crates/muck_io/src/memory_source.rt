// A source in memory, of which chosen reads fail.
ghost use Rattle.std.specs.Prelude.{◌≡◌, ◌<◌, Some};
ghost use Rattle.muck_io.specs.Source.{HasRead, GotCause};
ghost use Rattle.muck_io.specs.inner.Memory.{no_calls, HasGiven};

use crate::calls::Calls;
use crate::{Got, Source};
use std::marker::Model;

/// A source over bytes in memory. Contracts see it as the bytes that it has left and its calls.
#[derive(Drop)]
pub struct MemSource {
    bytes: Vec<u8>,
    at: usize,
    calls: Calls,
}

impl Model for MemSource {
    ghost use Rattle.std.specs.Prelude.{drop, length, ◌≤◌, ◌<◌};
    ghost use Rattle.muck_io.specs.inner.Memory.{Supply};

    ghost Value = { Supply };

    ghost view = { λ s. record { left = drop s.at s.bytes.items; calls = s.calls } };

    ghost invariant = { λ s. (s.at ≤ length s.bytes.items) × (0 < s.calls.most) };
}

impl MemSource {
    /// A source that gives these bytes, as many a read as the buffer holds. The reads of these
    /// numbers, from 1, fail.
    pub fn new(bytes: Vec<u8>, failing: Vec<u64>) -> Self
        ensures left { result.left ≡ bytes.items }
        ensures calls { result.calls ≡ no_calls failing.items }
    {
        MemSource {
            bytes,
            at: 0,
            calls: Calls::new(failing),
        }
    }

    /// The same source, which gives at most this many bytes a read.
    pub fn at_most(self, most: usize) -> Self
        requires { 0 < most }
        ensures left { result.left ≡ self.left }
        ensures calls { result.calls ≡ record self.calls { most = most } }
    {
        let MemSource {
            bytes,
            at,
            mut calls,
        } = self;
        calls.set_most(most);
        MemSource { bytes, at, calls }
    }
}

impl Source for MemSource {
    ghost left = { λ s. Some s.left };

    ghost faults = { λ s. s.calls.faults };

    /// Reads as many bytes as are left, fit and may go in one read. It fails exactly where its number
    /// is listed; then no byte is taken, and the buffer stays.
    fn read(&mut self, buf: &mut [u8]) -> Got
        ensures bytes { HasRead (Some self.old.left) (Some self.new.left) buf.old buf.new result }
        ensures cause { GotCause self.old.calls.faults self.new.calls.faults result }
        ensures exact { HasGiven self.old self.new buf.old buf.new result }
    {
        if self.calls.begin() {
            self.calls.fault();
            return Got::Failed;
        }
        let left = self.bytes.split_at(self.at).1;
        let n = buf.len().min(left.len()).min(self.calls.most());
        if n == 0 {
            return Got::End;
        }
        buf[..n].copy_from_slice(&left[..n]);
        self.at += n;
        Got::Bytes(n)
    }
}
