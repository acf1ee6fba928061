// The worked programs, and the table of primitives.
ghost use Rattle.muf_model.specs.inner.TableRows.{TableRows};
ghost use Rattle.muf_model.specs.inner.Worked.{Rows};

/// The worked programs of this crate leave what they should, and primitives have the names and levels that they should. It does
/// nothing: its clauses are the rows.
#[tactic(auto)]
pub fn rows_hold()
    ensures rows { Rows }
    ensures table { TableRows }
{}
