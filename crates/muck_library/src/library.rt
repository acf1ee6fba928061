// The built forms of programs.
ghost use Rattle.std.specs.Prelude.{◌≡◌, ◌<◌, ◌+◌, ◌-◌, ◌^◌, [], ◌++◌, None, IfOk, IfSome, OnOk, OnErr, length, replicate, is_ok};
ghost use Rattle.std.specs.List.{All};
ghost use Rattle.std.specs.Option.{option_copied, option_map};
ghost use Rattle.spec_live.specs.Objects.{index_of};
ghost use Rattle.muf_model.specs.inner.Decode.{tree_of};
ghost use Rattle.muf_model.specs.inner.Stands.{TreeStands};
ghost use Rattle.muck_library.specs.Programs.{built_tree};
ghost use Rattle.muck_library.specs.Library.{form_at, form_kept, form_dropped, form_made, formed};
ghost use Rattle.muck_library.specs.inner.Rebuilt.{IsRebuilt};

use crate::{BuildFault, Flaw, build};
use muck_db::Db;
use muck_model::{Dbref, NoMemory};
use muf_model::{Code, Shared};
use std::alloc::Global;
use std::marker::Model;

/// The built forms of programs, kept by number. Contracts see by number the tree of each, or none; the code that is kept
/// stands for its tree.
#[derive(Drop)]
pub struct Library {
    forms: Vec<Option<Shared<Code>>>,
}

impl Model for Library {
    ghost use Rattle.std.specs.Prelude.{List, Option};
    ghost use Rattle.std.specs.Coded.{codes};
    ghost use Rattle.std.specs.List.{All};
    ghost use Rattle.muf_model.specs.Tree.{Tree};
    ghost use Rattle.muf_model.specs.inner.Codes.{block_code};
    ghost use Rattle.muck_library.specs.inner.Forms.{trees_of, FormStands};

    ghost Value = { List (Option Tree) };

    ghost coded = { Prim.hlevel (codes, block_code) };

    ghost view = { λ l. trees_of l.forms.items };

    ghost invariant = { λ l. All FormStands l.forms.items };
}

// The number from 0 on.
fn index_of(d: Dbref) -> Option<usize>
    ensures { result ≡ index_of d }
{
    if d.0 < 0 {
        return None;
    }
    Some(d.0 as usize)
}

impl Library {
    /// No form of any program.
    pub fn new(alloc: Global) -> Library
        ensures { result ≡ [] }
    {
        Library {
            forms: Vec::new(alloc),
        }
    }

    /// The built form of a program; `None` where none is kept.
    #[tactic(auto, using(crate::proofs::Kept::tree_read), unfolding(crate::specs::Library::form_at))]
    pub fn form(&self, d: Dbref) -> Option<&Shared<Code>>
        ensures tree { option_map tree_of (option_copied result) ≡ form_at d self.now }
        ensures stands { IfSome result (λ code. TreeStands code.now (tree_of code.now)) }
    {
        let n = index_of(d)?;
        match self.forms.get(n) {
            Some(Some(code)) => Some(code),
            _ => None,
        }
    }

    /// Keeps the form of a program in place of the one it had; nothing below `#0` has one. After `NoMemory` nothing has
    /// changed.
    #[tactic(auto, using(crate::proofs::Kept::with_form_placed), unfolding(crate::specs::Library::form_kept))]
    pub fn keep(&mut self, d: Dbref, code: Shared<Code>) -> Result<(), NoMemory>
        requires { TreeStands code (tree_of code) }
        ensures kept { OnOk result (self.new ≡ form_kept d (tree_of code) self.old) }
        ensures err { OnErr result (self.new ≡ self.old) }
    {
        if let Some(n) = index_of(d) {
            make_place(&mut self.forms, n)?;
            self.forms[n] = Some(code);
        }
        Ok(())
    }

    /// Keeps no form of a program any more.
    #[tactic(auto, using(crate::proofs::Kept::none_placed, crate::proofs::Kept::none_past), unfolding(crate::specs::Library::form_dropped))]
    pub fn drop_form(&mut self, d: Dbref)
        ensures { self.new ≡ form_dropped d self.old }
    {
        if let Some(n) = index_of(d) {
            if n < self.forms.len() {
                self.forms[n] = None;
            }
        }
    }

    /// The form of a program, which is built now where none is kept; `None` where its source has a flaw. After
    /// `NoMemory` nothing has changed.
    #[tactic(auto, unfolding(crate::specs::Library::formed))]
    pub fn formed(
        &mut self,
        alloc: Global,
        db: &Db,
        d: Dbref,
    ) -> Result<Option<Shared<Code>>, NoMemory>
        ensures formed { IfOk result (λ form. (option_map tree_of form, self.new) ≡ formed db.now d self.old) }
        ensures stands { IfOk result (λ form. IfSome form (λ code. TreeStands code (tree_of code))) }
        ensures err { OnErr result (self.new ≡ self.old) }
    {
        if let Some(code) = self.form(d) {
            let code = code.share()?;
            return Ok(Some(code));
        }
        self.make_form(alloc, db, d)
    }

    // Builds the form of a program that has none.
    fn make_form(
        &mut self,
        alloc: Global,
        db: &Db,
        d: Dbref,
    ) -> Result<Option<Shared<Code>>, NoMemory>
        ensures made { IfOk result (λ form. (option_map tree_of form, self.new) ≡ form_made d (built_tree db.now d) self.old) }
        ensures stands { IfOk result (λ form. IfSome form (λ code. TreeStands code (tree_of code))) }
        ensures err { OnErr result (self.new ≡ self.old) }
    {
        match build(alloc, db, d) {
            Ok(code) => {
                let code = Shared::new(alloc, code)?;
                self.keep(d, code.share()?)?;
                Ok(Some(code))
            }
            Err(BuildFault::Refused(_)) => Ok(None),
            Err(BuildFault::NoMemory) => Err(NoMemory),
        }
    }

    /// Builds a program anew and keeps its form; where the source has a flaw the answer is the first one, and no form of
    /// the program is kept. After `NoMemory` nothing has changed.
    pub fn rebuild(&mut self, alloc: Global, db: &Db, d: Dbref) -> Result<Option<Flaw>, NoMemory>
        ensures { IsRebuilt (built_tree db.now d) d self.old self.new result }
    {
        match build(alloc, db, d) {
            Ok(code) => {
                self.keep(d, Shared::new(alloc, code)?)?;
                Ok(None)
            }
            Err(BuildFault::Refused(flaw)) => {
                self.drop_form(d);
                Ok(Some(flaw))
            }
            Err(BuildFault::NoMemory) => Err(NoMemory),
        }
    }
}

// Has a place for this number.
fn make_place(forms: &mut Vec<Option<Shared<Code>>>, n: usize) -> Result<(), NoMemory>
    requires { n < 2 ^ 31 }
    ensures enough { OnOk result (n < length forms.new.items) }
    ensures filled { OnOk result (forms.new.items ≡ forms.old.items ++ replicate (n + 1 - length forms.old.items) None) }
    ensures err { OnErr result (forms.new.items ≡ forms.old.items) }
{
    if forms.len() <= n {
        forms.resize_with(n + 1, || None)?;
    }
    Ok(())
}
