// What is known at a place of a source.
ghost use Rattle.std.specs.Prelude.{◌≤◌};
ghost use Rattle.indexmap.specs.IndexMap.{index_map_len};

use indexmap::IndexMap;
use muck_model::Line;
use muf_model::{Offer, VarId};

/// What a name of the program's stands for.
#[derive(Clone, Copy)]
pub(crate) enum Meaning {
    /// The word of this number.
    Word(u32),
    Variable(VarId),
}

/// What a name that has to follow is wanted for.
#[derive(Clone, Copy)]
pub(crate) enum Wanted {
    /// A word whose `:` stands at this line.
    Title(u32),
    /// A variable of the program.
    Shared,
    /// The offer of a word.
    Offered(Offer),
    /// A variable of the present word.
    Own,
    /// The same, and the `var!` at this line stores into it.
    Stored(u32),
}

/// What may come next.
#[derive(Clone, Copy)]
pub(crate) enum Mode {
    /// A declaration.
    Outside,
    /// A word of the present word.
    Inside,
    /// A name.
    Naming(Wanted),
    /// An argument of the header whose `:` stands at this line.
    Heading(u32),
    /// The rest of that header, behind its `--`.
    Results(u32),
}

/// What is known at a place of a source.
#[derive(Drop)]
pub(crate) struct Known {
    /// The words and variables of the program.
    pub names: IndexMap<Line, Meaning>,
    /// How many of them are variables.
    pub variables: usize,
    /// The variables of the present word.
    pub locals: IndexMap<Line, VarId>,
    pub mode: Mode,
    ghost few: { index_map_len locals ≤ 64 },
}
