// The worked rows.
ghost use Rattle.spec_live.specs.inner.LockRows.{LockRows};
ghost use Rattle.spec_live.specs.inner.PasswordRows.{PasswordRows};
ghost use Rattle.spec_live.specs.inner.Rows.{Rows};

/// The worked rows of this crate hold. It does nothing: its clauses are the rows.
#[tactic(auto)]
pub fn rows_hold()
    ensures rows { Rows }
    ensures locks { LockRows }
    ensures passwords { PasswordRows }
{}
