// The laws of the model, and the worked rows.
ghost use Rattle.muck_disk.specs.inner.Laws.{TornAny, SameAny, OnlyAny, ElapsesAny};
ghost use Rattle.muck_disk.specs.inner.Rows.{Rows};

/// The words in which a disk speaks of its images allow at least what a crash may do, and the worked rows hold. It does
/// nothing: its clauses are the laws.
#[tactic(auto, using(crate::proofs::Lawful::torn, crate::proofs::Lawful::same, crate::proofs::Lawful::only, crate::proofs::Lawful::elapses, crate::specs::inner::Rows::rows))]
pub fn laws_hold()
    ensures torn { TornAny }
    ensures same { SameAny }
    ensures only { OnlyAny }
    ensures elapses { ElapsesAny }
    ensures rows { Rows }
{}
