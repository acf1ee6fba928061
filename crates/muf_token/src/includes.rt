// The definitions that objects lend.
use muck_model::{Dbref, Line, NoMemory, Row};
use std::alloc::Global;

/// A name and the text that it stands for.
#[derive(Drop)]
pub struct Definition {
    pub name: Line,
    pub text: Line,
}

/// Definitions, in order.
pub type DefList = Row<Definition>;

/// Where the definitions of objects are found.
pub trait Includes {
    ghost use Rattle.std.specs.Prelude.{◌≡◌, List, Option, IfOk};
    ghost use Rattle.muck_model.specs.declared.dbref.Dbref.{Dbref};
    ghost use Rattle.muf_token.specs.declared.includes.Definition.{Definition};

    /// The definitions of an object, in order; none where it isn't there or is garbage.
    ghost lent: { Self → Dbref → Option (List Definition) };

    /// The definitions of an object, in order; none exactly where it isn't there or is garbage.
    fn defs(&self, alloc: Global, d: Dbref) -> Result<Option<DefList>, NoMemory>
        ensures { IfOk result (λ defs. defs ≡ lent self.now d) };
}
