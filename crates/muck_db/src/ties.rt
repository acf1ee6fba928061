// Who is tied to a number: who has its home there, or a link to it. It is noted at that number, so that recycling an
// object looks at those alone.
ghost use Rattle.std.specs.Prelude.{◌≡◌, ◌<◌, ◌≤◌, ℕ, length, false, true, IfOk, OnOk, Some};
ghost use Rattle.muck_db.specs.inner.Slots.{home_at};
ghost use Rattle.muck_db.specs.inner.Ties.{link_at, Tethers, Notes, IsNoted, HasTies};

use crate::links::index_of;
use crate::slot::Slot;
use crate::slots::Slots;
use muck_model::NoMemory;
use std::alloc::Global;
use std::collections::BTreeSet;

/// The numbers that are tied to one number. Where `is_whole` is false memory was wanted, and some may be lacking. There
/// may be some that aren't tied to it any more.
#[derive(Drop)]
pub struct Tied {
    pub numbers: BTreeSet<u32>,
    pub is_whole: bool,
}

/// What is tied to each number. Nothing is noted of `#0`, which can't be recycled.
#[derive(Drop)]
pub struct Ties {
    pub of: Vec<Tied>,
}

/// Where the home and the link of an object lead.
#[derive(Clone, Copy)]
pub struct Tether {
    pub home: Option<u32>,
    pub link: Option<u32>,
}

/// Where the home and the link of a number lead, both nowhere where it is garbage.
#[tactic(auto, unfolding(crate::specs::inner::Slots::home_at, crate::specs::inner::Ties::link_at, crate::specs::inner::Slots::object_at, spec_live::specs::Objects::garbage))]
pub fn tether_of(slots: &Slots, k: u32) -> Tether
    ensures home { result.home ≡ home_at slots.now.items k }
    ensures link { result.link ≡ link_at slots.now.items k }
{
    match slots.get(k) {
        Some(
            Slot {
                object: Some(object),
                ..
            },
        ) => Tether {
            home: index_of(object.home),
            link: index_of(object.link),
        },
        _ => Tether {
            home: None,
            link: None,
        },
    }
}

fn leads(to: Option<u32>, d: u32) -> bool
    ensures { result ≡ false → to ≡ Some d → ⊥ }
{
    match to {
        Some(n) => n == d,
        None => false,
    }
}

// Whether a home or a link leads there.
fn tethers(tether: Tether, d: u32) -> bool
    ensures { result ≡ false → Tethers tether d → ⊥ }
{
    if leads(tether.home, d) {
        return true;
    }
    leads(tether.link, d)
}

impl Tied {
    // Nothing is among them yet.
    pub fn new(alloc: Global) -> Tied
        ensures { result.is_whole ≡ true }
    {
        Tied {
            numbers: BTreeSet::new(alloc),
            is_whole: true,
        }
    }

    // A number is among these.
    fn note(&mut self, k: u32)
        ensures others { (j : ℕ) → Notes self.old j → Notes self.new j }
        ensures noted { Notes self.new k }
    {
        if self.numbers.insert(k).is_err() {
            self.is_whole = false;
        }
    }

    // A number is among these, if there is one.
    pub fn note_some(&mut self, k: Option<u32>)
        ensures others { (j : ℕ) → Notes self.old j → Notes self.new j }
        ensures noted { (n : ℕ) → k ≡ Some n → Notes self.new n }
    {
        if let Some(k) = k {
            self.note(k);
        }
    }

    // Whether it is known that a number isn't among these.
    pub fn lacks(&self, k: u32) -> bool
        ensures { result ≡ true → Notes self.now k → ⊥ }
    {
        self.is_whole && !self.numbers.contains(&k)
    }

    // A number isn't tied to it any more.
    fn leave_out(&mut self, k: u32)
        ensures { (j : ℕ) → (j ≡ k → ⊥) → Notes self.old j → Notes self.new j }
    {
        let _was = self.numbers.remove(&k);
    }
}

impl Ties {
    // Room for so many numbers, to which nothing is tied.
    fn none(alloc: Global, n: u32) -> Result<Ties, NoMemory>
        ensures { IfOk result (λ ties. n ≤ length ties.of.items) }
    {
        let mut ties = Ties {
            of: Vec::new(alloc),
        };
        for k in 0..n {
            ties.make_room(alloc, k)?;
        }
        Ok(ties)
    }

    /// What is tied to each number of a table.
    pub fn of_slots(alloc: Global, slots: &Slots) -> Result<Ties, NoMemory>
        requires { length slots.now.items ≤ 100000 }
        ensures { IfOk result (λ ties. HasTies slots.now.items ties.of.items) }
    {
        let n = slots.len() as u32;
        let mut ties = Ties::none(alloc, n)?;
        for k in 0..n {
            ties.note_both(k, tether_of(slots, k));
        }
        Ok(ties)
    }

    /// Makes room for a number, where it is the next one.
    pub fn make_room(&mut self, alloc: Global, n: u32) -> Result<(), NoMemory>
        requires { n ≤ length self.old.of.items }
        ensures others { (d j : ℕ) → d < length self.old.of.items → IsNoted self.old.of.items d j → IsNoted self.new.of.items d j }
        ensures long { length self.old.of.items ≤ length self.new.of.items }
        ensures known { OnOk result (n < length self.new.of.items) }
    {
        if n as usize == self.of.len() {
            self.of.push(Tied::new(alloc))?;
        }
        Ok(())
    }

    // Notes a number at another one.
    fn note_at(&mut self, d: u32, k: u32)
        ensures long { length self.new.of.items ≡ length self.old.of.items }
        ensures others { (e j : ℕ) → IsNoted self.old.of.items e j → IsNoted self.new.of.items e j }
        ensures noted { IsNoted self.new.of.items d k }
    {
        if (d as usize) < self.of.len() {
            self.of[d as usize].note(k);
        }
    }

    // Notes a number at the one that it is tied to.
    fn note(&mut self, to: Option<u32>, k: u32)
        ensures long { length self.new.of.items ≡ length self.old.of.items }
        ensures others { (d j : ℕ) → IsNoted self.old.of.items d j → IsNoted self.new.of.items d j }
        ensures noted { (d : ℕ) → (d ≡ 0 → ⊥) → to ≡ Some d → IsNoted self.new.of.items d k }
    {
        let Some(d) = to else {
            return;
        };
        if d > 0 {
            self.note_at(d, k);
        }
    }

    // Notes a number at those that it is tied to.
    fn note_both(&mut self, k: u32, tether: Tether)
        ensures long { length self.new.of.items ≡ length self.old.of.items }
        ensures others { (d j : ℕ) → IsNoted self.old.of.items d j → IsNoted self.new.of.items d j }
        ensures noted { (d : ℕ) → (d ≡ 0 → ⊥) → Tethers tether d → IsNoted self.new.of.items d k }
    {
        self.note(tether.home, k);
        self.note(tether.link, k);
    }

    // Leaves a number out where it was tied to, unless it still is.
    fn loosen(&mut self, from: Option<u32>, k: u32, tether: Tether)
        ensures long { length self.new.of.items ≡ length self.old.of.items }
        ensures others { (d j : ℕ) → (j ≡ k → ⊥) → IsNoted self.old.of.items d j → IsNoted self.new.of.items d j }
        ensures still { (d : ℕ) → Tethers tether d → IsNoted self.old.of.items d k → IsNoted self.new.of.items d k }
    {
        let Some(d) = from else {
            return;
        };
        if tethers(tether, d) {
            return;
        }
        if (d as usize) < self.of.len() {
            self.of[d as usize].leave_out(k);
        }
    }

    /// A number is tied elsewhere than before.
    pub fn retie(&mut self, k: u32, before: Tether, after: Tether)
        requires { (d : ℕ) → (d ≡ 0 → ⊥) → Tethers before d → IsNoted self.old.of.items d k }
        ensures long { length self.new.of.items ≡ length self.old.of.items }
        ensures others { (d j : ℕ) → (j ≡ k → ⊥) → IsNoted self.old.of.items d j → IsNoted self.new.of.items d j }
        ensures noted { (d : ℕ) → (d ≡ 0 → ⊥) → Tethers after d → IsNoted self.new.of.items d k }
    {
        if before.home == after.home && before.link == after.link {
            return;
        }
        self.note_both(k, after);
        self.loosen(before.home, k, after);
        self.loosen(before.link, k, after);
    }
}
