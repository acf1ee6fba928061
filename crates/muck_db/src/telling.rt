// What is to be told of objects.
ghost use Rattle.std.specs.Prelude.{◌≡◌, ◌<◌, ◌≤◌, ◌^◌, ℕ, length, None, IfSome, IfNone};
ghost use Rattle.spec_live.specs.Objects.{changed_at};
ghost use Rattle.spec_live.specs.Marks.{marked_from, told_of};
ghost use Rattle.muck_db.specs.inner.Slots.{mark_at, entries_of, with_mark};

use crate::blocks::Flag;
use crate::links::dbref_of;
use crate::slots::Slots;
use spec_live::{Changed, Mark};

#[tactic(auto, unfolding(crate::specs::inner::Slots::mark_at))]
fn mark_of(slots: &Slots, k: u32) -> Option<Mark>
    requires { k < length slots.now.items }
    ensures { result ≡ mark_at slots.now.items k }
{
    slots.at(k).mark
}

// The lowest number with a mark, where none stands below `told`. The blocks in which none may be are passed over.
pub fn marked(slots: &Slots, told: u32) -> Option<(u32, Mark)>
    requires few { length slots.now.items ≤ 100000 }
    requires unmarked { (k : ℕ) → k < told → mark_at slots.now.items k ≡ None }
    ensures is { result ≡ marked_from 0 (entries_of slots.now.items) }
    ensures known { IfSome result (λ p. p.0 < length slots.now.items) }
    ensures below { IfSome result (λ p. (k : ℕ) → k < p.0 → mark_at slots.now.items k ≡ None) }
    ensures none { IfNone result ((k : ℕ) → k < length slots.now.items → mark_at slots.now.items k ≡ None) }
{
    let n = slots.len() as u32;
    let mut k = slots.next_flagged(Flag::Marked, told);
    while k < n {
        if let Some(mark) = mark_of(slots, k) {
            return Some((k, mark));
        }
        k = slots.next_flagged(Flag::Marked, k + 1);
    }
    None
}

#[tactic(auto, unfolding(spec_live::specs::Objects::changed_at))]
pub fn clear_mark(slots: &mut Slots, k: u32)
    requires { k < length slots.old.items }
    ensures { slots.new.items ≡ changed_at k (with_mark None) slots.old.items }
{
    let slot = slots.at_mut(k);
    slot.mark = None;
}

// What is told of a mark.
pub fn told_of(n: u32, mark: Mark) -> Changed
    requires { n < 2 ^ 31 }
    ensures { result ≡ told_of (n, mark) }
{
    match mark {
        Mark::Lines => Changed::Lines(dbref_of(n)),
        Mark::Gone => Changed::Gone(dbref_of(n)),
    }
}
