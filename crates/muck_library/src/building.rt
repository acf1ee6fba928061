// From the source of a program to its code.
ghost use Rattle.std.specs.Prelude.{◌≡◌, ◌<◌, List, IfOk, length};
ghost use Rattle.muf_model.specs.inner.Decode.{tree_of};
ghost use Rattle.muf_token.specs.declared.token.Token.{Token};
ghost use Rattle.muf_token.specs.Source.{words};
ghost use Rattle.muf_token.specs.inner.Spots.{IsAnswer};
ghost use Rattle.muck_library.specs.Programs.{lent_in, source_in, built_tree, IsBuilt, IsWritten};

use crate::BuildFault;
use crate::lending::Definitions;
use muck_db::Db;
use muck_model::{Dbref, Line};
use muf_compile::compile;
use muf_model::Code;
use muf_token::{TokenFault, TokenList, tokens};
use std::alloc::Global;

// The source of an object; of what isn't there no line.
#[tactic(auto, unfolding(crate::specs::Programs::source_in))]
fn source_of(db: &Db, d: Dbref) -> &[Line]
    ensures { result.now ≡ source_in db.now d }
{
    match db.get(d) {
        Some(object) => object.lines().as_slice(),
        None => &[],
    }
}

// The words of a program.
fn words_of(alloc: Global, db: &Db, program: Dbref) -> Result<TokenList, TokenFault>
    ensures { IsAnswer (λ (list : List Token). list) (words (lent_in db.now) (source_in db.now program)) result }
{
    let include = Definitions { db };
    tokens(alloc, source_of(db, program), &include)
}

/// The code of a program, built from its source as it is and from the definitions that objects lend now.
///
/// `Refused` comes exactly where the source has a flaw, with the first one; an object that isn't there or isn't a
/// program has no line, which is refused. `NoMemory` says nothing of the source. Nothing is changed. The tree of the code
/// is written in the words of the source by the rules of the grammar.
pub fn build(alloc: Global, db: &Db, program: Dbref) -> Result<Code, BuildFault>
    ensures built { IsBuilt (built_tree db.now program) result }
    ensures written { IfOk result (λ code. IsWritten db.now program code) }
    ensures some { IfOk result (λ code. 0 < length (tree_of code).words) }
{
    let words = words_of(alloc, db, program)?;
    let code = compile(alloc, &words)?;
    Ok(code)
}
