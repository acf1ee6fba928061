// The starting world.
ghost use Rattle.std.specs.Prelude.{◌≡◌, None, IfOk};
ghost use Rattle.muck_model.specs.Bytes.{text_fault};
ghost use Rattle.muck_log.specs.World.{stored_room_zero, first_digest, stored_player_one};

use muck_codec::Stored;
use muck_model::{Dbref, Flags, Kind, Line, LineList, NoMemory, Row};
use spec_live::WIZARD;
use std::alloc::Global;

// Room Zero, below which all rooms are.
#[tactic(auto, unfolding(muck_log::specs::World::stored_room_zero))]
pub fn room_zero(alloc: Global) -> Result<Stored, NoMemory>
    ensures { IfOk result (λ o. o ≡ stored_room_zero) }
{
    Ok(Stored {
        dbref: Dbref(0),
        kind: Kind::Room,
        flags: Flags(0),
        level: 0,
        owner: Dbref(1),
        place: Dbref(-1),
        link: Dbref(-1),
        home: Dbref(-1),
        first_content: Dbref(1),
        first_exit: Dbref(-1),
        next: Dbref(-1),
        name: Line::of_text(alloc, b"Room Zero")?,
        props: Row::new(alloc)?,
        lines: LineList::new(alloc)?,
        digest: Line::of_text(alloc, b"")?,
    })
}

// The digest of One's first password.
#[tactic(auto, unfolding(muck_log::specs::World::first_digest))]
fn first_digest(alloc: Global) -> Result<Line, NoMemory>
    ensures { IfOk result (λ line. line ≡ first_digest) }
{
    Line::of_text(
        alloc,
        b"0000000000000000788a82af0ffc0d0cdaa372295052de2760a7cbb2947aa0585aab17efefce5216",
    )
}

// One, who is a wizard.
#[tactic(auto, unfolding(muck_log::specs::World::stored_player_one))]
pub fn player_one(alloc: Global) -> Result<Stored, NoMemory>
    ensures { IfOk result (λ o. o ≡ stored_player_one) }
{
    Ok(Stored {
        dbref: Dbref(1),
        kind: Kind::Player,
        flags: Flags(WIZARD),
        level: 0,
        owner: Dbref(1),
        place: Dbref(0),
        link: Dbref(-1),
        home: Dbref(0),
        first_content: Dbref(-1),
        first_exit: Dbref(-1),
        next: Dbref(-1),
        name: Line::of_text(alloc, b"One")?,
        props: Row::new(alloc)?,
        lines: LineList::new(alloc)?,
        digest: first_digest(alloc)?,
    })
}
