// What records say of an object, by its number. What isn't there is garbage.
ghost use Rattle.std.specs.Prelude.{◌≡◌, ◌<◌, length, true, false};
ghost use Rattle.spec_live.specs.Objects.{dbref_of, index_of, same, is_player};
ghost use Rattle.muck_store.specs.Forms.{next_of_stored};
ghost use Rattle.muck_store.specs.Whole.{stored_kind, seats_in, first_at};

use muck_codec::Stored;
use muck_model::{Dbref, Kind};
use spec_live::{VEHICLE, has_flag};

pub const NOTHING: Dbref = Dbref(-1);

pub const HOME: Dbref = Dbref(-3);

// The number from 0 on.
pub fn index_of(d: Dbref) -> Option<u32>
    ensures { result ≡ index_of d }
{
    if d.0 < 0 {
        return None;
    }
    Some(d.0 as u32)
}

pub fn same(a: Dbref, b: Dbref) -> bool
    ensures { result ≡ same a b }
{
    a.0 == b.0
}

// Whether it is the number of that object.
pub fn is_number(d: Dbref, k: u32) -> bool
    ensures { result ≡ same d (dbref_of k) }
{
    i64::from(d.0) == i64::from(k)
}

#[tactic(auto, unfolding(crate::specs::Whole::stored_kind))]
pub fn kind_of(records: &[Stored], k: u32) -> Kind
    ensures value { result ≡ stored_kind records.now k }
    ensures within { is_player result ≡ true → k < length records.now }
{
    match records.get(k as usize) {
        Some(stored) => stored.kind,
        None => Kind::Garbage,
    }
}

// Whether players may sit on it.
#[tactic(auto, unfolding(crate::specs::Whole::seats_in))]
pub fn seats_in(records: &[Stored], k: u32) -> bool
    ensures { result ≡ seats_in records.now k }
{
    match records.get(k as usize) {
        Some(stored) => has_flag(VEHICLE, stored.flags),
        None => false,
    }
}

// What stands behind it in its list.
#[tactic(auto, unfolding(crate::specs::Forms::next_of_stored))]
pub fn next_at(records: &[Stored], k: u32) -> Option<u32>
    ensures { result ≡ next_of_stored records.now k }
{
    match records.get(k as usize) {
        Some(stored) => index_of(stored.next),
        None => None,
    }
}

// The first of its exits, or of its contents.
pub fn first_at(records: &[Stored], exits: bool, k: u32) -> Option<u32>
    ensures { result ≡ first_at exits records.now k }
{
    match records.get(k as usize) {
        Some(stored) => index_of(if exits {
            stored.first_exit
        } else {
            stored.first_content
        }),
        None => None,
    }
}
