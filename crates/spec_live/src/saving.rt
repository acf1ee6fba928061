// How an object stands to the dumps.

/// How the stored form of an object stands to what the store has of it: its change mark.
#[derive(Clone, Copy)]
pub enum Saving {
    /// It is as the last dump has it that was stored.
    Done,
    /// It is as the dump has it that runs.
    Pending,
    /// It may differ from both, so the next dump has to look at it.
    Due,
}
