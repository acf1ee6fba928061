// The law of what is stored.
ghost use Rattle.muck_store.specs.inner.Again.{LoadsAgain};

/// What is loaded of what was stored of a world that hangs together is that world, but for the marks of its objects. It
/// does nothing: its clause is the law.
#[tactic(auto, using(crate::proofs::Reload::loads_again))]
pub fn world_loads_again()
    ensures again { LoadsAgain }
{}
