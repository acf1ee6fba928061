// A sink in memory, of which chosen writes fail.
ghost use Rattle.std.specs.Prelude.{◌≡◌, [], Some};
ghost use Rattle.muck_io.specs.Sink.{HasPut, PutCause};
ghost use Rattle.muck_io.specs.inner.Memory.{no_calls, HasTaken};

use crate::calls::Calls;
use crate::{Put, Sink};
use std::alloc::Global;
use std::marker::Model;

/// A sink that keeps its bytes in memory. Contracts see it as those bytes and its calls.
#[derive(Drop)]
pub struct MemSink {
    bytes: Vec<u8>,
    calls: Calls,
}

impl Model for MemSink {
    ghost use Rattle.muck_io.specs.inner.Memory.{Store};

    ghost Value = { Store };

    ghost view = { λ s. record { bytes = s.bytes.items; calls = s.calls } };
}

impl MemSink {
    /// A sink without bytes, which takes whole pieces. The writes of these numbers, from 1, fail.
    pub fn new(alloc: Global, failing: Vec<u64>) -> Self
        ensures bytes { result.bytes ≡ [] }
        ensures calls { result.calls ≡ no_calls failing.items }
    {
        MemSink {
            bytes: Vec::new(alloc),
            calls: Calls::new(failing),
        }
    }

    /// The same sink, which takes at most this many bytes a write. At 0 it takes none, and each write
    /// of a piece that has bytes counts a fault.
    pub fn at_most(self, most: usize) -> Self
        ensures bytes { result.bytes ≡ self.bytes }
        ensures calls { result.calls ≡ record self.calls { most = most } }
    {
        let MemSink { bytes, mut calls } = self;
        calls.set_most(most);
        MemSink { bytes, calls }
    }

    /// The bytes that were written.
    pub fn bytes(&self) -> &[u8]
        ensures { result.now ≡ self.now.bytes }
    {
        &self.bytes
    }
}

impl Sink for MemSink {
    ghost written = { λ s. Some s.bytes };

    ghost faults = { λ s. s.calls.faults };

    /// Takes as many bytes as may go in one write. It fails where its number is listed, or memory is
    /// refused; then no byte is taken.
    fn write(&mut self, bytes: &[u8]) -> Put
        ensures bytes { HasPut (Some self.old.bytes) (Some self.new.bytes) bytes.now result }
        ensures cause { PutCause self.old.calls.faults self.new.calls.faults bytes.now result }
        ensures exact { HasTaken self.old self.new bytes.now result }
    {
        let listed = self.calls.begin();
        let n = bytes.len().min(self.calls.most());
        let piece = bytes.split_at(n).0;
        if listed || self.bytes.extend_from_slice(piece).is_err() {
            self.calls.fault();
            return Put::Failed;
        }
        if n == 0 && !bytes.is_empty() {
            self.calls.fault();
        }
        Put::Bytes(n)
    }
}
