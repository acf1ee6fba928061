// Conditionals that are open.
ghost use Rattle.std.specs.Prelude.{◌≡◌, ◌∷◌, [], Some, None, OnOk, OnErr, true, false};
ghost use Rattle.muf_token.specs.Branches.{is_taking, outermost, other_part, without_innermost};
ghost use Rattle.muf_token.specs.Output.{Leads};

use crate::fault::refused;
use crate::{FaultKind, TokenFault};
use muck_model::NoMemory;
use std::alloc::Global;
use std::marker::Model;

/// A conditional that is open: its line, whether its present part is read, and whether the part behind its `$else` is
/// to be read, which is none from there on.
#[derive(Clone, Copy)]
pub(crate) struct Branch {
    pub line: u32,
    pub taken: bool,
    pub other: Option<bool>,
}

/// The conditionals that are open. Contracts see them with the innermost first.
#[derive(Drop)]
pub(crate) struct Branches {
    items: Vec<Branch>,
}

impl Model for Branches {
    ghost use Rattle.std.specs.Prelude.{List, reverse};
    ghost use Rattle.muf_token.specs.declared.branch.Branch.{Branch};

    ghost Value = { List Branch };

    ghost view = { λ b. reverse b.items.items };
}

impl Branches {
    /// None is open.
    pub fn new(alloc: Global) -> Branches
        ensures { result ≡ [] }
    {
        Branches {
            items: Vec::new(alloc),
        }
    }

    /// Whether words are read where these are open.
    #[tactic(auto, using(crate::proofs::BranchLemmas::branches))]
    pub fn is_taking(&self) -> bool
        ensures { result ≡ is_taking self.now }
    {
        match self.items.as_slice().split_last() {
            Some((innermost, _)) => innermost.taken,
            None => true,
        }
    }

    /// The line of the outermost one.
    #[tactic(auto, using(crate::proofs::BranchLemmas::branches))]
    pub fn outermost(&self) -> Option<u32>
        ensures { result ≡ outermost self.now }
    {
        match self.items.as_slice().split_first() {
            Some((outermost, _)) => Some(outermost.line),
            None => None,
        }
    }

    /// One more is open.
    #[tactic(auto, using(crate::proofs::BranchLemmas::branches))]
    pub fn open(&mut self, branch: Branch) -> Result<(), NoMemory>
        ensures { OnOk result (self.new ≡ branch ∷ self.old) }
    {
        self.items.push(branch)?;
        Ok(())
    }

    /// The part behind the `$else` of the innermost one begins.
    #[tactic(auto, using(crate::proofs::BranchLemmas::branches))]
    pub fn turn(&mut self, line: u32) -> Result<(), TokenFault>
        ensures { Leads (other_part line self.old) result self.new }
    {
        let fault = refused(line, FaultKind::BadDirective);
        let Some(innermost) = self.items.pop() else {
            return Err(fault);
        };
        let Some(taken) = innermost.other else {
            return Err(fault);
        };
        self.items.push(Branch {
            line: innermost.line,
            taken,
            other: None,
        })?;
        Ok(())
    }

    /// The innermost one ends.
    #[tactic(auto, using(crate::proofs::BranchLemmas::branches))]
    pub fn close(&mut self, line: u32) -> Result<(), TokenFault>
        ensures { Leads (without_innermost line self.old) result self.new }
    {
        match self.items.pop() {
            Some(_) => Ok(()),
            None => Err(refused(line, FaultKind::BadDirective)),
        }
    }
}
