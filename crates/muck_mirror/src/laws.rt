// What the mirror of a file holds.
ghost use Rattle.std.specs.Prelude.{ℕ, ◌<◌, ◌^◌};
ghost use Rattle.muck_mirror.specs.Fronts.{HoldsFront};

/// Over every list of calls, with loss, with repeats and in any order, a mirror that is fed batches of one file holds the stored
/// world of the first m of them, where m is the greatest number such that each of these was fed.
pub fn holds_front()
    ensures { (generation first : ℕ) → first < 2 ^ 64 → HoldsFront generation first }
{}
