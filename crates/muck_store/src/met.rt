// The numbers that were met, with marks to find them by.
ghost use Rattle.std.specs.Prelude.{◌≡◌, ◌<◌, ◌≤◌, ◌++◌, ◌∷◌, [], length, false, IfOk, OnOk, slice_index};
ghost use Rattle.spec_live.specs.Chain.{has};
ghost use Rattle.muck_store.specs.inner.Marks.{IsMarked};

use muck_model::NoMemory;
use std::alloc::Global;

/// Numbers in the order in which they were met, each once, and a mark for each number that there is.
#[derive(Drop)]
pub struct Met {
    marks: Vec<bool>,
    numbers: Vec<u32>,
    ghost marked: { IsMarked marks.items numbers.items },
}

impl Met {
    // None of so many numbers.
    pub fn new(alloc: Global, count: usize) -> Result<Met, NoMemory>
        ensures none { IfOk result (λ met. met.numbers.items ≡ []) }
        ensures size { IfOk result (λ met. length met.marks.items ≡ count) }
    {
        Ok(Met {
            marks: vec![in alloc; false; count]?,
            numbers: Vec::new(alloc),
        })
    }

    // How many were met.
    pub fn len(&self) -> usize
        ensures is { result ≡ length self.now.numbers.items }
        ensures most { result ≤ length self.now.marks.items }
    {
        self.numbers.len()
    }

    // The one that was met after i others.
    pub fn at(&self, i: usize) -> u32
        requires { i < length self.now.numbers.items }
        ensures { result ≡ slice_index self.now.numbers.items i }
    {
        self.numbers[i]
    }

    pub fn has(&self, d: u32) -> bool
        requires { d < length self.now.marks.items }
        ensures { result ≡ has d self.now.numbers.items }
    {
        self.marks[d as usize]
    }

    // Puts a number behind those that were met.
    pub fn push(&mut self, d: u32) -> Result<(), NoMemory>
        requires within { d < length self.old.marks.items }
        requires fresh { has d self.old.numbers.items ≡ false }
        ensures ok { OnOk result (self.new.numbers.items ≡ self.old.numbers.items ++ d ∷ []) }
        ensures size { length self.new.marks.items ≡ length self.old.marks.items }
    {
        self.numbers.push(d)?;
        self.marks[d as usize] = true;
        Ok(())
    }
}
