// In which places something may stand that listens. They are noted, so that where nothing listens what is said costs no look at all that stands there.
ghost use Rattle.std.specs.Prelude.{◌≡◌, ◌⊎◌, ℕ, true, false, Some, slice_get, IfOk};
ghost use Rattle.muck_prop.specs.Store.{is_dir};
ghost use Rattle.spec_live.specs.Objects.{index_of};
ghost use Rattle.muck_db.specs.declared.slot.Slot.{Slot as Entry};
ghost use Rattle.muck_db.specs.inner.Slots.{shown};
ghost use Rattle.muck_db.specs.inner.Ties.{Notes};
ghost use Rattle.muck_db.specs.inner.Hearing.{listen_path, IsPlaceNoted, AreHeard, IsUnheard};

use crate::links::index_of;
use crate::slot::Slot;
use crate::ties::Tied;
use muck_model::NoMemory;
use muck_prop::Path;
use std::alloc::Global;

// The numbers of the places, of which some may be noted where nothing listens any more, and the slot that was written last, which isn't looked at yet.
#[derive(Drop)]
pub struct Hearers {
    pub listen: Path,
    pub places: Tied,
    pub last: Option<usize>,
}

// The place of what listens.
#[tactic(auto, unfolding(spec_live::specs::Objects::garbage))]
fn heard_place(listen: &Path, slot: &Slot) -> Option<u32>
    ensures { is_dir listen.now (shown slot.now).props ≡ true → result ≡ index_of (shown slot.now).place }
{
    let Some(object) = &slot.object else {
        return None;
    };
    if !object.props.is_dir(listen) {
        return None;
    }
    index_of(object.place)
}

impl Hearers {
    // Nothing listens anywhere.
    pub fn none(alloc: Global) -> Result<Hearers, NoMemory>
        ensures { IfOk result (λ hearers. hearers.listen ≡ listen_path) }
    {
        Ok(Hearers {
            listen: Path::of_text(alloc, b"_listen")?,
            places: Tied::new(alloc),
            last: None,
        })
    }

    // The place of a slot is noted, if it listens.
    fn note_place(&mut self, slot: &Slot)
        ensures listen { self.new.listen ≡ self.old.listen }
        ensures others { (p : ℕ) → Notes self.old.places p → Notes self.new.places p }
        ensures noted { is_dir self.old.listen (shown slot.now).props ≡ true → IsPlaceNoted self.new.places slot.now }
    {
        let place = heard_place(&self.listen, slot);
        self.places.note_some(place);
    }

    // What was written last is looked at, unless it is written again.
    fn look(&mut self, table: &Vec<Slot>, k: usize)
        ensures listen { self.new.listen ≡ self.old.listen }
        ensures others { (p : ℕ) → Notes self.old.places p → Notes self.new.places p }
        ensures noted { (j : ℕ) (s : Entry) → self.old.last ≡ Some j → (j ≡ k → ⊥) → slice_get table.now.items j ≡ Some s → is_dir self.old.listen (shown s).props ≡ true → IsPlaceNoted self.new.places s }
    {
        let Some(last) = self.last else {
            return;
        };
        if last == k {
            return;
        }
        if let Some(slot) = table.get(last) {
            self.note_place(slot);
        }
    }

    // The slot of a number is written next.
    pub fn write(&mut self, table: &Vec<Slot>, k: usize)
        requires { AreHeard self.old table.now.items }
        ensures heard { AreHeard self.new table.now.items }
        ensures last { self.new.last ≡ Some k }
    {
        self.look(table, k);
        self.last = Some(k);
    }

    // Whether what was written last may listen in a place.
    fn is_last_in(&self, table: &Vec<Slot>, place: u32) -> bool
        ensures { result ≡ false → (j : ℕ) (s : Entry) → self.now.last ≡ Some j → slice_get table.now.items j ≡ Some s → is_dir self.now.listen (shown s).props ≡ true → index_of (shown s).place ≡ Some place → ⊥ }
    {
        let Some(last) = self.last else {
            return false;
        };
        match table.get(last) {
            Some(slot) => heard_place(&self.listen, slot) == Some(place),
            None => false,
        }
    }

    // Whether it is known that nothing listens in a place.
    pub fn are_elsewhere(&self, table: &Vec<Slot>, place: u32) -> bool
        requires { AreHeard self.now table.now.items }
        ensures { result ≡ true → IsUnheard place table.now.items }
    {
        self.places.lacks(place) && !self.is_last_in(table, place)
    }
}
