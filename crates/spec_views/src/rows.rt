// The worked rows.
ghost use Rattle.spec_views.specs.inner.Rows.{Rows};

/// The worked rows of this crate hold. It does nothing: its clause is the rows.
#[tactic(auto, using(crate::proofs::Worked::rows))]
pub fn rows_hold()
    ensures { Rows }
{}
