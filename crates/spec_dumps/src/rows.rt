// The worked dumps.
ghost use Rattle.spec_dumps.specs.inner.Rows.{Rows};

/// What isn't what it is told to be: a cause, a front, a delta; and what two disks hold is one store. It does nothing: its clause is the rows.
#[tactic(auto)]
pub fn rows_hold()
    ensures { Rows }
{}
