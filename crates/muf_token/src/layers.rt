// What names mean. Each name has what the source says of it and what objects lend to it, and what was said last counts. An object's definitions are
// taken once, at its first `$include`; a later one only says from when on they count.
ghost use Rattle.std.specs.Prelude.{◌≡◌, ◌+◌, ◌++◌, ◌∷◌, [], List, ℕ, ℤ, Some, cond, IfOk, OnOk, is_some, option_copied};
ghost use Rattle.std.specs.Ordering.{int_eq};
ghost use Rattle.std.specs.List.{IsDistinct};
ghost use Rattle.std.specs.Map.{lookup, keys_of};
ghost use Rattle.std.specs.Str.{bytes_eq};
ghost use Rattle.muf_token.specs.Pieces.{lowered, source_pieces};
ghost use Rattle.muf_token.specs.inner.Layers.{newest, told, meant, lents, own, entry_at, stamp_at, lents_of, IsTimed, LendsOn};

use crate::definition::pieces_of;
use crate::includes::Definition;
use crate::piece::Piece;
use crate::place::lower_text;
use indexmap::IndexMap;
use muck_model::{Dbref, Line, NoMemory, Row};
use std::alloc::Global;

/// What an object lends to a name.
#[derive(Drop)]
pub(crate) struct Lent {
    pub object: i32,
    pub body: Row<Piece>,
}

/// What may be meant by a name: what the source says, since when, and what objects lend.
#[derive(Drop)]
pub(crate) struct Entry {
    pub stamp: u64,
    pub body: Option<Row<Piece>>,
    pub lent: Row<Lent>,
}

/// What names mean, in lower case, by when it was said.
#[derive(Drop)]
pub(crate) struct Layers {
    pub names: IndexMap<Line, Entry>,
    /// Since when the definitions of each included object count.
    pub stamps: IndexMap<i32, u64>,
    pub clock: u64,
}

// A word in lower case.
#[tactic(auto, using(crate::proofs::Texts::line_parts))]
fn lower_line(alloc: Global, word: &Line) -> Result<Line, NoMemory>
    ensures { IfOk result (λ line. line ≡ lowered word.now) }
{
    let line = lower_text(alloc, word.as_slice())?;
    Ok(line)
}

// The pieces of a text.
#[tactic(auto, using(crate::proofs::Texts::line_parts))]
fn line_pieces(alloc: Global, text: &Line) -> Result<Row<Piece>, NoMemory>
    ensures { IfOk result (λ list. list ≡ source_pieces text.now) }
{
    let list = pieces_of(alloc, text.as_slice())?;
    Ok(list)
}

impl Entry {
    // What the name means.
    fn meaning(&self, stamps: &IndexMap<i32, u64>) -> Option<&Row<Piece>>
        ensures { option_copied result ≡ (newest stamps.now.entries self.now.lent (self.now.stamp, self.now.body)).1 }
    {
        let mut best = self.body.as_ref();
        let mut since = self.stamp;
        for lent in self.lent.as_slice() {
            if let Some(stamp) = stamps.get(&lent.object) {
                if *stamp >= since {
                    since = *stamp;
                    best = Some(&lent.body);
                }
            }
        }
        best
    }
}

impl Layers {
    /// No name means anything.
    pub fn new(alloc: Global) -> Layers
        ensures told { told result ≡ [] }
        ensures timed { IsTimed result }
        ensures none { (d : ℤ) → stamp_at result d ≡ None }
        ensures no_lents { (q : List ℕ) → lents result q ≡ [] }
    {
        Layers {
            names: IndexMap::new(alloc),
            stamps: IndexMap::new(alloc),
            clock: 0,
        }
    }

    /// What a name means.
    pub fn get(&self, name: &Line) -> Option<&Row<Piece>>
        ensures { option_copied result ≡ lookup (bytes_eq name.now) (told self.now) }
    {
        let _count = self.names.len();
        match self.names.get(name) {
            Some(entry) => entry.meaning(&self.stamps),
            None => None,
        }
    }

    // Takes the entry of a name out; an empty one where it has none.
    fn take_entry(&mut self, alloc: Global, name: &Line) -> Result<Entry, NoMemory>
        ensures entry { IfOk result (λ e. (e.lent ≡ lents self.old name.now) × ((e.stamp, e.body) ≡ own self.old name.now)) }
        ensures rest { OnOk result ((q : List ℕ) → entry_at self.new q ≡ cond (bytes_eq name.now q) None (entry_at self.old q)) }
        ensures one { OnOk result (IsDistinct bytes_eq (keys_of self.new.names.entries)) }
        ensures stamps { self.new.stamps ≡ self.old.stamps }
        ensures clock { self.new.clock ≡ self.old.clock }
    {
        match self.names.swap_remove(name) {
            Some(entry) => Ok(entry),
            None => Ok(Entry {
                stamp: 0,
                body: None,
                lent: Row::new(alloc)?,
            }),
        }
    }

    // The time goes on.
    fn tick(&mut self) -> Result<u64, NoMemory>
        ensures now { IfOk result (λ t. t ≡ self.old.clock + 1) }
        ensures clock { OnOk result (self.new ≡ record self.old { clock = self.old.clock + 1 }) }
    {
        if self.clock == u64::MAX {
            return Err(NoMemory);
        }
        self.clock += 1;
        Ok(self.clock)
    }

    /// The source says what a name stands for from now on, or that it stands for nothing.
    pub fn set(
        &mut self,
        alloc: Global,
        name: Line,
        body: Option<Row<Piece>>,
    ) -> Result<(), NoMemory>
        requires { IsTimed self.old }
        ensures mean { OnOk result ((q : List ℕ) → meant self.new q ≡ cond (bytes_eq name q) body (meant self.old q)) }
        ensures kept { OnOk result (LendsOn self.old self.new) }
    {
        let mut entry = self.take_entry(alloc, &name)?;
        let stamp = self.tick()?;
        entry.stamp = stamp;
        entry.body = body;
        self.names.insert(name, entry)?;
        Ok(())
    }

    // An object lends one more to a name.
    fn lend(&mut self, alloc: Global, name: Line, lent: Lent) -> Result<(), NoMemory>
        ensures lents { OnOk result ((q : List ℕ) → lents self.new q ≡ cond (bytes_eq name q) (lents self.old q ++ lent ∷ []) (lents self.old q)) }
        ensures own { OnOk result ((q : List ℕ) → own self.new q ≡ own self.old q) }
        ensures one { OnOk result (IsDistinct bytes_eq (keys_of self.new.names.entries)) }
        ensures stamps { OnOk result (self.new.stamps ≡ self.old.stamps) }
        ensures clock { OnOk result (self.new.clock ≡ self.old.clock) }
    {
        let mut entry = self.take_entry(alloc, &name)?;
        entry.lent.push(lent)?;
        self.names.insert(name, entry)?;
        Ok(())
    }

    /// An object lends these definitions, which don't count yet.
    pub fn lend_all(
        &mut self,
        alloc: Global,
        object: Dbref,
        list: &[Definition],
    ) -> Result<(), NoMemory>
        requires { IsDistinct bytes_eq (keys_of self.old.names.entries) }
        ensures lents { OnOk result ((q : List ℕ) → lents self.new q ≡ lents self.old q ++ lents_of object.0 list.now q) }
        ensures own { OnOk result ((q : List ℕ) → own self.new q ≡ own self.old q) }
        ensures one { OnOk result (IsDistinct bytes_eq (keys_of self.new.names.entries)) }
        ensures stamps { OnOk result (self.new.stamps ≡ self.old.stamps) }
        ensures clock { OnOk result (self.new.clock ≡ self.old.clock) }
    {
        for definition in list {
            let name = lower_line(alloc, &definition.name)?;
            let body = line_pieces(alloc, &definition.text)?;
            let lent = Lent {
                object: object.0,
                body,
            };
            self.lend(alloc, name, lent)?;
        }
        Ok(())
    }

    /// Whether an object was included.
    pub fn knows(&self, object: Dbref) -> bool
        ensures { result ≡ is_some (stamp_at self.now object.0) }
    {
        self.stamps.contains_key(&object.0)
    }

    /// What an object lends counts from now on.
    pub fn renew(&mut self, object: Dbref) -> Result<(), NoMemory>
        ensures names { OnOk result (self.new.names ≡ self.old.names) }
        ensures clock { OnOk result (self.new.clock ≡ self.old.clock + 1) }
        ensures stamps { OnOk result ((d : ℤ) → stamp_at self.new d ≡ cond (int_eq object.0 d) (Some (self.old.clock + 1)) (stamp_at self.old d)) }
    {
        let stamp = self.tick()?;
        self.stamps.insert(object.0, stamp)?;
        Ok(())
    }
}
