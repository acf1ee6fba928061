// The worked rows.
ghost use Rattle.muck_io.specs.inner.Rows.{Rows};

/// The worked rows of this crate hold. It does nothing: its clause is the rows.
#[tactic(auto, using(crate::specs::inner::Rows::rows))]
pub fn rows_hold()
    ensures rows { Rows }
{}
