// The lists as matching and locks walk them.
ghost use Rattle.std.specs.Prelude.{◌≡◌, ◌<◌, ◌^◌, IfSome, false};
ghost use Rattle.muck_match.specs.Scenery.{chain};
ghost use Rattle.muck_lock.specs.inner.Chain.{IsChain};
ghost use Rattle.spec_live.specs.Seen.{listed_in};
ghost use Rattle.muck_db.specs.inner.Slots.{entries_of, HasOrder};
ghost use Rattle.muck_db.specs.inner.Shown.{after_in, first_in, next_in, dbref_at};

use crate::links::{dbref_of, first_of, next_of, place_of};
use crate::moves::number_of;
use crate::slots::Slots;
use muck_model::Dbref;

const NOTHING: Dbref = Dbref(-1);

// The object of a number that may be none.
pub fn dbref_at(at: Option<u32>) -> Dbref
    requires { IfSome at (λ k. k < 2 ^ 31) }
    ensures { result ≡ dbref_at at }
{
    match at {
        Some(k) => dbref_of(k),
        None => NOTHING,
    }
}

// The first of a list of exits, or of contents, or `#-1`.
pub fn first_listed(slots: &Slots, exits: bool, d: Dbref) -> Dbref
    requires { HasOrder slots.now.items }
    ensures listed { listed_in exits d (entries_of slots.now.items) ≡ chain (after_in (entries_of slots.now.items)) result }
    ensures first { exits ≡ false → result ≡ first_in (entries_of slots.now.items) d }
    ensures chained { IsChain (next_in (entries_of slots.now.items)) (first_in (entries_of slots.now.items) d) (listed_in false d (entries_of slots.now.items)) }
{
    match number_of(slots, d) {
        Some(k) => dbref_at(first_of(slots, exits, k)),
        None => NOTHING,
    }
}

// What stands behind an object in its list, or `#-1`.
pub fn next_listed(slots: &Slots, d: Dbref) -> Dbref
    requires { HasOrder slots.now.items }
    ensures after { after_in (entries_of slots.now.items) d ≡ chain (after_in (entries_of slots.now.items)) result }
    ensures next { result ≡ next_in (entries_of slots.now.items) d }
{
    let Some(k) = number_of(slots, d) else {
        return NOTHING;
    };
    match place_of(slots, k) {
        Some(_) => dbref_at(next_of(slots, k)),
        None => NOTHING,
    }
}
