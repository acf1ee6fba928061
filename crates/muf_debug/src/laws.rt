// What a tracer keeps.
ghost use Rattle.muf_debug.specs.Shown.{KeepsShown};
ghost use Rattle.muf_debug.specs.inner.Rows.{RowsHold};

/// A tracer that is told of views one behind the other keeps exactly those that are shown, or remembers that memory was wanted.
pub fn keeps_shown()
    ensures { KeepsShown }
{}

/// Worked rows.
pub fn rows_hold()
    ensures { RowsHold }
{}
