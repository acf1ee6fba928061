// The worked rows.
ghost use Rattle.spec_hooks.specs.inner.Worked.{WorkedRows};

/// The worked rows of this crate hold. It does nothing: its clause is the rows.
pub fn rows_hold()
    ensures { WorkedRows }
{}
