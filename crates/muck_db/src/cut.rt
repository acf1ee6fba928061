// What a dump hands to the log: the stored form of each object that isn't kept so.
ghost use Rattle.std.specs.Prelude.{◌≡◌, ◌<◌, ◌≤◌, ℕ, length, map, All, IfOk, OnOk, Some, true, slice_get};
ghost use Rattle.std.specs.FinMap.{entries};
ghost use Rattle.std.specs.List.{AllByRecursion};
ghost use Rattle.muck_model.specs.Bytes.{lines_most};
ghost use Rattle.muck_prop.specs.Store.{IsKept};
ghost use Rattle.muck_codec.specs.inner.Stored.{AreLines, AreProperties, IsStored};
ghost use Rattle.spec_live.specs.Objects.{garbage, list_in, object_in};
ghost use Rattle.muck_store.specs.inner.Changes.{LeavesOut};
ghost use Rattle.muck_store.specs.Forms.{first_in_list, link_to_number, next_in, persist, properties_of};
ghost use Rattle.muck_db.specs.inner.Kept.{MayHold, stored_at};
ghost use Rattle.muck_db.specs.inner.Dumps.{MayLook, passes};
ghost use Rattle.muck_db.specs.inner.Limits.{IsWithinLimits};
ghost use Rattle.muck_db.specs.inner.Slots.{saving_at, entries_of, HasOrder};

use crate::blocks::Flag;
use crate::kept::is_kept;
use crate::links::{dbref_of, first_of, next_of, place_of};
use crate::marking::is_due;
use crate::moves::object_of;
use crate::slots::Slots;
use crate::typed::{see_count, see_lists, see_numbers, see_text, see_ties, see_value};
use crate::walks::dbref_at;
use muck_codec::{Property, Stored};
use muck_model::{Dbref, Flags, Kind, Line, LineList, NoMemory, Row};
use muck_prop::{Listed, Props};
use spec_live::Object;
use std::alloc::Global;

fn copy_lines(alloc: Global, lines: &LineList) -> Result<LineList, NoMemory>
    requires few { length lines.now ≤ lines_most }
    ensures copy { IfOk result (λ copy. copy ≡ lines.now) }
    ensures storable { IfOk result (λ copy. AreLines copy) }
{
    let mut copy = Vec::new(alloc);
    for line in lines.as_slice() {
        see_text(line);
        copy.push(line.copy(alloc)?)?;
    }
    Ok(LineList::of(copy))
}

// The properties, by rising path, each with what its type and its map say of it.
fn copy_properties(alloc: Global, props: &Props) -> Result<Row<Property>, NoMemory>
    ensures list { IfOk result (λ list. list ≡ properties_of props.now) }
    ensures held { IfOk result (λ list. All MayHold list) }
    ensures kept { OnOk result (AllByRecursion IsKept (entries props.now)) }
{
    let all = props.all(alloc)?.into_vec();
    let mut list = Vec::with_capacity(alloc, all.len())?;
    for listed in all {
        let Listed { rest, value } = listed;
        see_value(&value);
        list.push(Property { path: rest, value })?;
    }
    Ok(Row::of(list))
}

// The properties, by rising path. They have a spelling.
fn properties_of(alloc: Global, props: &Props) -> Result<Row<Property>, NoMemory>
    ensures list { IfOk result (λ list. list ≡ properties_of props.now) }
    ensures storable { IfOk result (λ list. AreProperties list) }
{
    let list = copy_properties(alloc, props)?;
    see_count(&list);
    Ok(list)
}

// The first of a list of exits, or of contents, or `#-1`.
pub fn first_link(slots: &Slots, exits: bool, k: u32) -> Dbref
    requires order { HasOrder slots.now.items }
    requires known { k < length slots.now.items }
    ensures { result ≡ first_in_list (list_in exits (entries_of slots.now.items) k) }
{
    dbref_at(first_of(slots, exits, k))
}

// What stands behind an object in the list that it is in, or `#-1`.
pub fn next_link(slots: &Slots, k: u32) -> Dbref
    requires order { HasOrder slots.now.items }
    requires known { k < length slots.now.items }
    ensures { result ≡ link_to_number (next_in (entries_of slots.now.items) k) }
{
    match place_of(slots, k) {
        Some(_) => dbref_at(next_of(slots, k)),
        None => dbref_at(None),
    }
}

// What is stored of an object, with its chain fields.
fn record_of(alloc: Global, slots: &Slots, k: u32, object: &Object) -> Result<Stored, NoMemory>
    requires order { HasOrder slots.now.items }
    requires known { k < length slots.now.items }
    requires object { object_in (entries_of slots.now.items) k ≡ Some object.now }
    requires few { length object.now.lines ≤ lines_most }
    ensures stored { IfOk result (λ stored. Some stored ≡ stored_at (entries_of slots.now.items) k) }
    ensures storable { IfOk result (λ stored. IsStored stored) }
{
    let name = object.name.copy(alloc)?;
    let props = properties_of(alloc, &object.props)?;
    let lines = copy_lines(alloc, &object.lines)?;
    let digest = object.digest.copy(alloc)?;
    let stored = Stored {
        dbref: dbref_of(k),
        kind: object.kind,
        flags: object.flags,
        level: object.level,
        owner: object.owner,
        place: object.place,
        link: object.link,
        home: object.home,
        first_content: first_link(slots, false, k),
        first_exit: first_link(slots, true, k),
        next: next_link(slots, k),
        name,
        props,
        lines,
        digest,
    };
    see_numbers(&stored);
    see_ties(&stored);
    see_lists(&stored);
    see_text(&stored.name);
    see_text(&stored.digest);
    Ok(stored)
}

// What is kept of an object that was recycled.
#[tactic(auto, unfolding(spec_live::specs::Objects::garbage))]
fn garbage(alloc: Global) -> Result<Object, NoMemory>
    ensures { IfOk result (λ object. object ≡ garbage) }
{
    Ok(Object {
        kind: Kind::Garbage,
        name: Line::of_text(alloc, b"<garbage>")?,
        owner: Dbref(1),
        place: Dbref(-1),
        link: Dbref(-1),
        home: Dbref(-1),
        flags: Flags(0),
        level: 0,
        props: Props::new(alloc)?,
        lines: LineList::new(alloc)?,
        digest: Line::of_text(alloc, b"")?,
    })
}

// What is stored at a number: its object, or what is kept of one that was recycled.
#[tactic(auto, using(crate::proofs::Cutting::object_stored))]
fn object_at<'a>(slots: &'a Slots, k: u32, blank: &'a Object) -> &'a Object
    requires known { k < length slots.now.items }
    requires blank { blank.now ≡ garbage }
    ensures { object_in (entries_of slots.now.items) k ≡ Some result.now }
{
    match object_of(slots, k) {
        Some(object) => object,
        None => blank,
    }
}

// What a dump looks at.
#[derive(Clone, Copy)]
pub enum Extent {
    // The objects that are due; what is kept has the others as they are.
    WhatIsDue,
    // All objects, whatever is kept.
    Everything,
}

// Whether a dump may leave out a number without a look at its object.
fn is_passed(extent: Extent, slots: &Slots, k: u32) -> bool
    requires { k < length slots.now.items }
    ensures { result ≡ passes extent (saving_at slots.now.items k) }
{
    match extent {
        Extent::WhatIsDue => !is_due(slots, k),
        Extent::Everything => false,
    }
}

// Whether a number is left out: it isn't looked at, or its object is kept so. It is compared in place with what is kept, which takes no memory.
fn is_left_out(extent: Extent, base: &[Stored], slots: &Slots, k: u32, object: &Object) -> bool
    requires order { HasOrder slots.now.items }
    requires known { k < length slots.now.items }
    requires object { object_in (entries_of slots.now.items) k ≡ Some object.now }
    requires may { MayLook extent base.now (entries_of slots.now.items) }
    ensures { result ≡ true → slice_get base.now k ≡ stored_at (entries_of slots.now.items) k }
{
    is_passed(extent, slots, k) || is_kept(base, slots, k, object)
}

// The next number that a dump may have to look at, from `from` on, or one past all.
fn next_look(extent: Extent, slots: &Slots, from: u32) -> u32
    requires { length slots.now.items ≤ 100000 }
    ensures later { from ≤ result }
    ensures passed { (i : ℕ) → from ≤ i → i < result → i < length slots.now.items → passes extent (saving_at slots.now.items i) ≡ true }
{
    match extent {
        Extent::WhatIsDue => slots.next_flagged(Flag::Unsaved, from),
        Extent::Everything => from,
    }
}

// What is stored of each object that is looked at and isn't kept so; only what differs is copied. A dump that looks at what
// is due alone passes over the blocks in which all is done.
pub fn records_of(
    alloc: Global,
    extent: Extent,
    base: &[Stored],
    slots: &Slots,
) -> Result<Row<Stored>, NoMemory>
    requires order { HasOrder slots.now.items }
    requires limits { IsWithinLimits (entries_of slots.now.items) }
    requires may { MayLook extent base.now (entries_of slots.now.items) }
    ensures records { IfOk result (λ records. LeavesOut base.now (persist (entries_of slots.now.items)) records) }
    ensures storable { IfOk result (λ records. All IsStored records) }
{
    let blank = garbage(alloc)?;
    let n = slots.len() as u32;
    let mut records = Row::new(alloc)?;
    let mut k = next_look(extent, slots, 0);
    while k < n {
        let object = object_at(slots, k, &blank);
        if !is_left_out(extent, base, slots, k, object) {
            records.push(record_of(alloc, slots, k, object)?)?;
        }
        k = next_look(extent, slots, k + 1);
    }
    Ok(records)
}
