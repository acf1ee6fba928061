// The calls of a source or a sink in memory, of which chosen ones fail.
ghost use Rattle.std.specs.Prelude.{◌≡◌, ◌≤◌};
ghost use Rattle.muck_io.specs.Faults.{one_more};
ghost use Rattle.muck_io.specs.inner.Memory.{no_calls, fails_next, after_call};

use std::marker::Model;

#[derive(Drop)]
pub(crate) struct Calls {
    count: u64,
    failing: Vec<u64>,
    most: usize,
    faults: u64,
}

impl Model for Calls {
    ghost use Rattle.std.specs.Prelude.{◌^◌};
    ghost use Rattle.muck_io.specs.inner.Memory.{CallRecord};

    ghost Value = { CallRecord };

    ghost view = { λ c. record { count = c.count; failing = c.failing.items; most = c.most; faults = c.faults } };
}

impl Calls {
    // No call yet; those of these numbers, from 1, are to fail.
    pub(crate) fn new(failing: Vec<u64>) -> Self
        ensures { result ≡ no_calls failing.items }
    {
        Calls {
            count: 0,
            failing,
            most: usize::MAX,
            faults: 0,
        }
    }

    // From now on a call moves at most this many bytes.
    pub(crate) fn set_most(&mut self, most: usize)
        ensures { self.new ≡ record self.old { most = most } }
    {
        self.most = most;
    }

    // The most bytes that a call moves.
    pub(crate) fn most(&self) -> usize
        ensures { result ≡ self.now.most }
    {
        self.most
    }

    // Counts a call, and answers whether it is to fail.
    pub(crate) fn begin(&mut self) -> bool
        ensures fails { result ≡ fails_next self.old }
        ensures count { self.new ≡ after_call self.old }
    {
        self.count = self.count.saturating_add(1);
        self.failing.contains(&self.count)
    }

    // Counts a fault.
    pub(crate) fn fault(&mut self)
        ensures faults { self.new ≡ record self.old { faults = one_more self.old.faults } }
        ensures later { self.old.faults ≤ self.new.faults }
    {
        self.faults = self.faults.saturating_add(1);
    }
}
