// A state that carries its history.

/// A state that carries its history.
pub trait Story {
    /// What stands in the history.
    type Entry;

    /// How a state began.
    type Start;

    ghost use Rattle.std.specs.Prelude.{List, ℕ};

    /// How it began.
    ghost start: { Self → Self.Start };

    /// What was done since, in order.
    ghost history: { Self → List Self.Entry };

    /// Whose an entry is.
    ghost party: { Self.Entry → ℕ };

    /// What may stand in the history, whoever made it.
    ghost allowed: { Self.Entry → Type 0 };
}
