// Where the paths of keys and of properties meet.
ghost use Rattle.std.specs.Prelude.{◌≡◌, ℕ, List, is_none};
ghost use Rattle.muck_lock.specs.Paths.{is_path};
ghost use Rattle.muck_prop.specs.Paths.{path_fault};

/// What the key of a lock may have as a path is exactly what is read as the path of a property. It does nothing: its
/// clause is the law.
#[tactic(auto, using(crate::proofs::PathLaws::paths_agree))]
pub fn paths_agree()
    ensures law { (text : List ℕ) → is_path text ≡ is_none (path_fault text) }
{}
