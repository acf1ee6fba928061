// What hooks may do.
ghost use Rattle.std.specs.Prelude.{ℕ, List, Option};
ghost use Rattle.muck_model.specs.declared.dbref.Dbref.{Dbref};
ghost use Rattle.spec_events.specs.World.{World};
ghost use Rattle.spec_events.specs.Hooked.{hooked};
ghost use Rattle.spec_events.specs.OnlyStarts.{OnlyStarts};

/// Hooks start programs behind an event, and do nothing else. It does nothing.
#[tactic(auto)]
pub fn only_starts()
    ensures { (before after : World) (spoken : Option (Dbref × List ℕ)) → OnlyStarts after (hooked before after spoken) }
{}
