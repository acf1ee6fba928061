// The first objects.
ghost use Rattle.std.specs.Prelude.{◌≡◌, [], ◌∷◌, IfOk, Some, None, codes};
ghost use Rattle.muck_model.specs.Bytes.{text_fault};
ghost use Rattle.spec_live.specs.Start.{room_zero, player_one};
ghost use Rattle.spec_live.specs.Password.{digest_of, first_salt, first_password};
ghost use Rattle.muck_db.specs.inner.Slots.{first_slots};

use crate::password::digest_text;
use crate::slot::Slot;
use crate::slots::Slots;
use muck_model::{Dbref, Flags, Kind, Line, LineList, NoMemory};
use muck_prop::Props;
use spec_live::{Object, Saving, WIZARD};
use std::alloc::Global;

// Room Zero, below which all rooms are.
#[tactic(auto, unfolding(spec_live::specs::Start::room_zero))]
fn room_zero(alloc: Global) -> Result<Object, NoMemory>
    ensures { IfOk result (λ o. o ≡ room_zero) }
{
    Ok(Object {
        kind: Kind::Room,
        name: Line::of_text(alloc, b"Room Zero")?,
        owner: Dbref(1),
        place: Dbref(-1),
        link: Dbref(-1),
        home: Dbref(-1),
        flags: Flags(0),
        level: 0,
        props: Props::new(alloc)?,
        lines: LineList::new(alloc)?,
        digest: Line::of_text(alloc, b"")?,
    })
}

fn first_digest(alloc: Global) -> Result<Line, NoMemory>
    ensures { IfOk result (λ line. line ≡ digest_of first_salt first_password) }
{
    digest_text(alloc, &[0; 8], b"potrzebie")
}

// One, who is a wizard.
#[tactic(auto, unfolding(spec_live::specs::Start::player_one, spec_live::specs::Start::first_digest))]
fn player_one(alloc: Global) -> Result<Object, NoMemory>
    ensures { IfOk result (λ o. o ≡ player_one) }
{
    Ok(Object {
        kind: Kind::Player,
        name: Line::of_text(alloc, b"One")?,
        owner: Dbref(1),
        place: Dbref(0),
        link: Dbref(-1),
        home: Dbref(0),
        flags: Flags(WIZARD),
        level: 0,
        props: Props::new(alloc)?,
        lines: LineList::new(alloc)?,
        digest: first_digest(alloc)?,
    })
}

// Room Zero, and One in it.
#[tactic(auto, unfolding(crate::specs::inner::Slots::first_slots))]
pub fn first_slots(alloc: Global) -> Result<Slots, NoMemory>
    ensures { IfOk result (λ slots. slots.items ≡ first_slots) }
{
    let mut slots = Slots::new(alloc)?;
    slots.push(Slot {
        object: Some(room_zero(alloc)?),
        first_content: Some(1),
        first_exit: None,
        next: None,
        mark: None,
        saving: Saving::Due,
        stood: None,
    })?;
    slots.push(Slot {
        object: Some(player_one(alloc)?),
        first_content: None,
        first_exit: None,
        next: None,
        mark: None,
        saving: Saving::Due,
        stood: Some(Dbref(0)),
    })?;
    Ok(slots)
}
