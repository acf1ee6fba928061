// The worked rows.
ghost use Rattle.spec_prims.specs.inner.PropWorked.{PropWorked};
ghost use Rattle.spec_prims.specs.inner.Rows.{Rows};
ghost use Rattle.spec_prims.specs.inner.TalkRows.{TalkRows};
ghost use Rattle.spec_prims.specs.inner.ObjectsWorked.{ObjectsWorked};
ghost use Rattle.spec_prims.specs.inner.WritesWorked.{WritesWorked};

/// The worked rows of this crate hold. It does nothing: its clauses are the rows, of the tests and of each family.
#[tactic(auto)]
pub fn rows_hold()
    ensures tests { Rows }
    ensures talk { TalkRows }
    ensures objects { ObjectsWorked }
    ensures writes { WritesWorked }
    ensures properties { PropWorked }
{}
