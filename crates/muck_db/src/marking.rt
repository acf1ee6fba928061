// How the objects stand to the dumps: their change marks, and what becomes of them at each moment of a dump.
ghost use Rattle.std.specs.Prelude.{◌≡◌, ◌<◌, ◌≤◌, map, length};
ghost use Rattle.spec_live.specs.Objects.{changed_at};
ghost use Rattle.spec_live.specs.Saving.{is_due};
ghost use Rattle.muck_db.specs.inner.Slots.{saving_at, with_saving};
ghost use Rattle.muck_db.specs.inner.Dumps.{saving_after};

use crate::blocks::Flag;
use crate::slots::Slots;
use spec_live::Saving;

// A moment of a dump.
#[derive(Clone, Copy)]
pub enum Moment {
    // It begins with what is due.
    Cut,
    // It was stored.
    Kept,
    // It failed.
    Failed,
}

// Whether the next dump has to look at a slot.
#[tactic(auto, unfolding(crate::specs::inner::Slots::saving_at))]
pub fn is_due(slots: &Slots, k: u32) -> bool
    requires { k < length slots.now.items }
    ensures { result ≡ is_due (saving_at slots.now.items k) }
{
    matches!(slots.at(k).saving, Saving::Due)
}

fn saving_after(moment: Moment, saving: Saving) -> Saving
    ensures { result ≡ saving_after moment saving }
{
    match (moment, saving) {
        (Moment::Cut, Saving::Due) => Saving::Pending,
        (Moment::Kept, Saving::Pending) => Saving::Done,
        (Moment::Failed, Saving::Pending) => Saving::Due,
        _ => saving,
    }
}

#[tactic(auto, unfolding(spec_live::specs::Objects::changed_at))]
fn pass_at(slots: &mut Slots, k: u32, moment: Moment)
    requires { k < length slots.old.items }
    ensures items { slots.new.items ≡ changed_at k (with_saving (saving_after moment)) slots.old.items }
    ensures len { length slots.new.items ≡ length slots.old.items }
{
    let slot = slots.at_mut(k);
    slot.saving = saving_after(moment, slot.saving);
}

// Takes every object past a moment of a dump. What is done stays so at each, and the blocks that hold nothing else are passed over.
pub fn pass(slots: &mut Slots, moment: Moment)
    requires { length slots.old.items ≤ 100000 }
    ensures { slots.new.items ≡ map (with_saving (saving_after moment)) slots.old.items }
{
    let n = slots.len() as u32;
    let mut k = slots.next_flagged(Flag::Unsaved, 0);
    while k < n {
        pass_at(slots, k, moment);
        slots.leave(k);
        k = slots.next_flagged(Flag::Unsaved, k + 1);
    }
}
