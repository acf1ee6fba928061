// Each record by itself, with the kinds of what it names.
ghost use Rattle.std.specs.Prelude.{◌≡◌, ◌≤◌, ◌&&◌, true, not, length};
ghost use Rattle.spec_live.specs.Objects.{dbref_of, same};
ghost use Rattle.muck_store.specs.Whole.{all_tied, has_chains, record_has_link, has_owner, has_place, home_for, is_blank_record, is_loose, agrees_with_records, leads_to, may_name};

use crate::kinds::{is_exit, is_garbage, is_player, is_room, may_link, may_live, may_stand};
use crate::records::{HOME, NOTHING, index_of, is_number, kind_of, same, seats_in};
use muck_codec::Stored;
use muck_model::{Dbref, Kind};

// Nothing, or the number of an object.
fn may_name(records: &[Stored], d: Dbref) -> bool
    ensures { result ≡ may_name records.now d }
{
    match index_of(d) {
        Some(n) => (n as usize) < records.len(),
        None => same(d, NOTHING),
    }
}

// Whether its lists may begin, and its own may go on, where it says.
fn has_chains(records: &[Stored], stored: &Stored) -> bool
    ensures { result ≡ has_chains records.now stored.now }
{
    may_name(records, stored.first_content)
        && may_name(records, stored.first_exit)
        && may_name(records, stored.next)
}

// Whether a player owns it.
fn has_owner(records: &[Stored], stored: &Stored) -> bool
    ensures { result ≡ has_owner records.now stored.now }
{
    match index_of(stored.owner) {
        Some(n) => is_player(kind_of(records, n)),
        None => false,
    }
}

// Whether it is the number of no object.
fn is_nowhere(place: Dbref) -> bool
    ensures { result ≡ not (leads_to (λ n. true) place) }
{
    match index_of(place) {
        Some(_) => false,
        None => true,
    }
}

// Whether it may stand where it says: only `#0`, a room, stands nowhere.
fn has_place(records: &[Stored], k: u32, stored: &Stored) -> bool
    ensures { result ≡ has_place records.now k stored.now }
{
    if k == 0 {
        return is_room(stored.kind) && is_nowhere(stored.place) && same(stored.next, NOTHING);
    }
    match index_of(stored.place) {
        Some(p) => may_stand(stored.kind, kind_of(records, p), seats_in(records, p)),
        None => false,
    }
}

// Whether it may lead where it says.
fn has_link(records: &[Stored], stored: &Stored) -> bool
    ensures { result ≡ record_has_link records.now stored.now }
{
    if same(stored.link, NOTHING) || is_exit(stored.kind) && same(stored.link, HOME) {
        return true;
    }
    match index_of(stored.link) {
        Some(n) => may_link(stored.kind, kind_of(records, n)),
        None => false,
    }
}

// Whether it may live where it says.
fn has_home(records: &[Stored], stored: &Stored) -> bool
    ensures { result ≡ home_for stored.now.kind records.now stored.now }
{
    match stored.kind {
        Kind::Thing | Kind::Player => match index_of(stored.home) {
            Some(n) => may_live(stored.kind, kind_of(records, n)),
            None => false,
        },
        Kind::Room | Kind::Exit | Kind::Program | Kind::Garbage => same(stored.home, NOTHING),
    }
}

// Whether it is named as garbage is, `#1` owns it, it names no other object, and it is in no list.
fn is_loose(stored: &Stored) -> bool
    ensures { result ≡ is_loose stored.now }
{
    stored.name.as_slice() == b"<garbage>".as_slice()
        && same(stored.owner, Dbref(1))
        && same(stored.place, NOTHING)
        && same(stored.link, NOTHING)
        && same(stored.home, NOTHING)
        && same(stored.first_content, NOTHING)
        && same(stored.first_exit, NOTHING)
        && same(stored.next, NOTHING)
}

// Whether nothing is kept of it.
fn is_blank(stored: &Stored) -> bool
    ensures { result ≡ is_blank_record stored.now }
{
    is_loose(stored)
        && stored.flags.0 == 0
        && stored.level == 0
        && stored.props.len() == 0
        && stored.lines.len() == 0
        && stored.digest.as_slice().len() == 0
}

fn is_tied(records: &[Stored], k: u32, stored: &Stored) -> bool
    ensures { result ≡ agrees_with_records records.now k stored.now }
{
    if is_garbage(stored.kind) {
        return is_blank(stored);
    }
    has_owner(records, stored)
        && has_place(records, k, stored)
        && has_link(records, stored)
        && has_home(records, stored)
        && has_chains(records, stored)
}

// Whether it has that number, and agrees with the kinds of what it names.
fn is_right(records: &[Stored], k: u32, stored: &Stored) -> bool
    ensures { result ≡ (same stored.now.dbref (dbref_of k) && agrees_with_records records.now k stored.now) }
{
    is_number(stored.dbref, k) && is_tied(records, k, stored)
}

// Whether each record has the number of its place, and agrees with the kinds of what it names.
pub fn all_tied(records: &[Stored]) -> bool
    requires few { length records.now ≤ 100000 }
    ensures { result ≡ all_tied records.now 0 records.now }
{
    for k in 0..records.len() {
        if !is_right(records, k as u32, &records[k]) {
            return false;
        }
    }
    true
}
