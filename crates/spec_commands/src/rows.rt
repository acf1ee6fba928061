// The worked rows.
ghost use Rattle.spec_commands.specs.inner.EditRows.{EditRows};
ghost use Rattle.spec_commands.specs.inner.GoingRows.{GoingRows};
ghost use Rattle.spec_commands.specs.inner.ProgramRows.{ProgramRows};
ghost use Rattle.spec_commands.specs.inner.TalkRows.{TalkRows};
ghost use Rattle.spec_commands.specs.inner.WalkRows.{WalkRows};

/// The worked rows of the editor, of the commands of programs, of talk, of taking and of walking hold. It does nothing: its clauses are the rows.
#[tactic(auto)]
pub fn rows_hold()
    ensures edit_rows { EditRows }
    ensures program_rows { ProgramRows }
    ensures talk_rows { TalkRows }
    ensures going_rows { GoingRows }
    ensures walk_rows { WalkRows }
{}
