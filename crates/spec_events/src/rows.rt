// The worked slices, lines, dumps, own entries and hooks.
ghost use Rattle.spec_events.specs.inner.Rows.{Rows};
ghost use Rattle.spec_events.specs.inner.LineRows.{LineRows};
ghost use Rattle.spec_events.specs.inner.DumpRows.{DumpRows};
ghost use Rattle.spec_events.specs.inner.OwnRows.{OwnRows};
ghost use Rattle.spec_events.specs.inner.HookRows.{HookRows};

/// The worked rows of this crate hold. It does nothing: its clause is the rows.
#[tactic(auto)]
pub fn rows_hold()
    ensures rows { Rows }
    ensures lines { LineRows }
    ensures dumps { DumpRows }
    ensures own { OwnRows }
    ensures hooks { HookRows }
{}
