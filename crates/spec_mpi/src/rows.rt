// The worked rows.
ghost use Rattle.spec_mpi.specs.inner.Worked.{Worked};

/// The worked rows of this crate hold. It does nothing: its clause is the rows.
#[tactic(auto, using(crate::proofs::Working::worked))]
pub fn rows_hold()
    ensures rows { Worked }
{}
