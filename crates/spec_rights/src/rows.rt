// The worked rows.
ghost use Rattle.spec_rights.specs.inner.LevelRows.{LevelRows};
ghost use Rattle.spec_rights.specs.inner.RuleRows.{Reaching, Moving, Making, Ending};

/// The worked rows hold: at which level a program runs and for whom, and what each rule denies and lets pass. It does nothing: its
/// clauses are the rows.
#[tactic(auto)]
pub fn rows_hold()
    ensures levels { LevelRows }
    ensures reaching { Reaching }
    ensures moving { Moving }
    ensures making { Making }
    ensures ending { Ending }
{}
