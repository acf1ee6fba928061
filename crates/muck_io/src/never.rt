// A source and a sink that never fail, and keep nothing.
ghost use Rattle.std.specs.Prelude.{[], Some, None};

use crate::{Got, Put, Sink, Source};

/// A source that has no bytes: each read answers its end, and none fails.
#[derive(Clone, Copy, Debug, PartialEq, Eq)]
pub struct NeverSource;

impl Source for NeverSource {
    ghost left = { λ _. Some [] };

    ghost faults = { λ _. 0 };

    fn read(&mut self, _buf: &mut [u8]) -> Got {
        Got::End
    }
}

/// A sink that takes each byte and never fails. It keeps no bytes and tells none.
#[derive(Clone, Copy, Debug, PartialEq, Eq)]
pub struct NeverSink;

impl Sink for NeverSink {
    ghost written = { λ _. None };

    ghost faults = { λ _. 0 };

    fn write(&mut self, bytes: &[u8]) -> Put {
        Put::Bytes(bytes.len())
    }
}
