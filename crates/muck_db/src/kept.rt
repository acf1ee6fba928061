// Whether what a dump would store of an object is kept already. It is compared in place, without memory, what costs least first.
ghost use Rattle.std.specs.Prelude.{◌≡◌, ◌<◌, length, true, Some, slice_get};
ghost use Rattle.spec_live.specs.Objects.{object_in};
ghost use Rattle.muck_store.specs.Forms.{properties_of};
ghost use Rattle.muck_db.specs.inner.Slots.{entries_of, HasOrder};
ghost use Rattle.muck_db.specs.inner.Kept.{stored_at, HasFields, HasLinks, HasTexts};

use crate::cut::{first_link, next_link};
use crate::links::dbref_of;
use crate::slots::Slots;
use muck_codec::{Property, Stored};
use muck_model::{LineList, Row};
use muck_prop::Props;
use spec_live::Object;

// The fields of fixed size.
fn has_fields(object: &Object, record: &Stored) -> bool
    ensures { result ≡ true → HasFields object.now record.now }
{
    record.kind == object.kind
        && record.flags == object.flags
        && record.level == object.level
        && record.owner == object.owner
        && record.place == object.place
        && record.link == object.link
        && record.home == object.home
}

// The number, and the chain fields.
fn has_links(slots: &Slots, k: u32, record: &Stored) -> bool
    requires order { HasOrder slots.now.items }
    requires known { k < length slots.now.items }
    ensures { result ≡ true → HasLinks (entries_of slots.now.items) k record.now }
{
    record.dbref == dbref_of(k)
        && record.first_content == first_link(slots, false, k)
        && record.first_exit == first_link(slots, true, k)
        && record.next == next_link(slots, k)
}

fn same_lines(kept: &LineList, lines: &LineList) -> bool
    ensures { result ≡ true → kept.now ≡ lines.now }
{
    kept.as_slice() == lines.as_slice()
}

// The properties: a walk over the map, beside what is kept.
fn same_properties(kept: &Row<Property>, props: &Props) -> bool
    ensures { result ≡ true → kept.now ≡ properties_of props.now }
{
    let mut left = props.walk();
    if left.len() != kept.len() {
        return false;
    }
    for property in kept.as_slice() {
        if !left.takes(&property.path, &property.value) {
            return false;
        }
    }
    true
}

// What has any length.
fn has_texts(object: &Object, record: &Stored) -> bool
    ensures { result ≡ true → HasTexts object.now record.now }
{
    record.name == object.name
        && record.digest == object.digest
        && same_lines(&record.lines, &object.lines)
        && same_properties(&record.props, &object.props)
}

// Whether a record is what is stored of an object.
fn is_stored(slots: &Slots, k: u32, object: &Object, record: &Stored) -> bool
    requires order { HasOrder slots.now.items }
    requires known { k < length slots.now.items }
    requires object { object_in (entries_of slots.now.items) k ≡ Some object.now }
    ensures { result ≡ true → Some record.now ≡ stored_at (entries_of slots.now.items) k }
{
    has_fields(object, record) && has_links(slots, k, record) && has_texts(object, record)
}

// Whether what is kept at the number of an object is what is stored of it. Nothing is said where it isn't.
pub fn is_kept(base: &[Stored], slots: &Slots, k: u32, object: &Object) -> bool
    requires order { HasOrder slots.now.items }
    requires known { k < length slots.now.items }
    requires object { object_in (entries_of slots.now.items) k ≡ Some object.now }
    ensures { result ≡ true → slice_get base.now k ≡ stored_at (entries_of slots.now.items) k }
{
    match base.get(k as usize) {
        Some(record) => is_stored(slots, k, object, record),
        None => false,
    }
}
