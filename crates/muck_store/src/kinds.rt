// Which kinds go together.
ghost use Rattle.std.specs.Prelude.{◌≡◌};
ghost use Rattle.spec_live.specs.Objects.{may_stand, is_room, is_exit, is_player, is_garbage};
ghost use Rattle.spec_live.specs.Setting.{may_link, may_live};

use muck_model::Kind;

/// What may be in a room; in a thing, on which players may sit where it is a vehicle; and in a player.
pub fn may_stand(kind: Kind, place: Kind, seats: bool) -> bool
    ensures { result ≡ may_stand kind place seats }
{
    match kind {
        Kind::Room => matches!(place, Kind::Room),
        Kind::Thing | Kind::Program | Kind::Exit => {
            matches!(place, Kind::Room | Kind::Thing | Kind::Player)
        }
        Kind::Player => match place {
            Kind::Room => true,
            Kind::Thing => seats,
            _ => false,
        },
        Kind::Garbage => false,
    }
}

/// Where an exit and a room may lead.
pub fn may_link(kind: Kind, to: Kind) -> bool
    ensures { result ≡ may_link kind to }
{
    match kind {
        Kind::Exit => matches!(to, Kind::Room | Kind::Program),
        Kind::Room => matches!(to, Kind::Room),
        _ => false,
    }
}

/// Where a thing and a player may live.
pub fn may_live(kind: Kind, to: Kind) -> bool
    ensures { result ≡ may_live kind to }
{
    match kind {
        Kind::Thing => matches!(to, Kind::Room | Kind::Thing | Kind::Player),
        Kind::Player => matches!(to, Kind::Room | Kind::Thing),
        _ => false,
    }
}

pub(crate) fn is_room(kind: Kind) -> bool
    ensures { result ≡ is_room kind }
{
    matches!(kind, Kind::Room)
}

pub(crate) fn is_exit(kind: Kind) -> bool
    ensures { result ≡ is_exit kind }
{
    matches!(kind, Kind::Exit)
}

pub(crate) fn is_player(kind: Kind) -> bool
    ensures { result ≡ is_player kind }
{
    matches!(kind, Kind::Player)
}

pub(crate) fn is_garbage(kind: Kind) -> bool
    ensures { result ≡ is_garbage kind }
{
    matches!(kind, Kind::Garbage)
}
