// Items that the primitives of talk give, and who is connected.
ghost use Rattle.std.specs.Prelude.{◌≡◌, ◌≤◌, IfOk, map, filter, filter_map, count_by, take, drop};
ghost use Rattle.std.specs.Int.{w32, cast_signed};
ghost use Rattle.std.specs.Option.{option_map};
ghost use Rattle.muf_model.specs.declared.value.Value.TheVariants.{Int, Ref};
ghost use Rattle.muf_model.specs.inner.View.{view};
ghost use Rattle.muf_frame.specs.inner.Shown.{Shown, flat};
ghost use Rattle.muck_perm.specs.inner.Guards.{world_of};
ghost use Rattle.spec_live.specs.Connections.{is_connection_of, has_player};
ghost use Rattle.spec_prims.specs.Talk.{count_item, items_with_count, player_at, player_numbered, is_place, player_item, number_item, players, item_object, seated_number, seat_numbered, seat_at};
ghost use Rattle.prim_common.specs.inner.Applied.{items_of};

use muck_board::Connection;
use muck_model::{Dbref, NoMemory};
use muck_perm::Guard;
use muf_frame::Frame;
use muf_model::Value;
use prim_common::Made;

// The most that an integer counts.
const COUNT_MOST: usize = 2_147_483_647;

/// A count, as far as integers go.
pub(crate) fn counted(count: usize) -> Value
    ensures { view result ≡ count_item count }
{
    Value::Int(count.min(COUNT_MOST) as i32)
}

// Items, the first of them the deepest, and their count upon them.
fn with_count(items: Vec<Value>) -> Result<Made, NoMemory>
    ensures { IfOk result (λ made. items_of made ≡ items_with_count (map view items.items)) }
{
    let count = counted(items.len());
    let mut all = items;
    all.push(count)?;
    all.reverse();
    Ok(Made::Many(all))
}

// The player of a connection.
fn player_item(connection: &Connection) -> Option<Value>
    ensures { result ≡ option_map Ref connection.now.player }
{
    let player = connection.player()?;
    Some(Value::Ref(player))
}

// The number of a connection.
fn number_item(connection: &Connection) -> Value
    ensures { result ≡ Int (cast_signed w32 connection.now.number) }
{
    Value::Int(connection.number().cast_signed())
}

// The players of the connections that have one.
fn player_values(guard: &Guard) -> Result<Vec<Value>, NoMemory>
    ensures { IfOk result (λ items. items.items ≡ filter_map (λ c. option_map Ref c.player) guard.now.board.now.connections) }
{
    let connections = guard.board().connections().iter();
    let items = connections
        .filter_map(|c| player_item(c))
        .collect(guard.alloc())?;
    Ok(items)
}

/// The players of the connections that have one, and their count upon them.
#[tactic(auto, using(crate::proofs::Giving::shown_players))]
pub(crate) fn players_counted(guard: &Guard) -> Result<Made, NoMemory>
    ensures { IfOk result (λ made. items_of made ≡ items_with_count (map player_item (players (world_of guard.now)))) }
{
    let players = player_values(guard)?;
    with_count(players)
}

// The numbers of the connections of a player.
fn number_values(guard: &Guard, player: Dbref) -> Result<Vec<Value>, NoMemory>
    ensures { IfOk result (λ items. items.items ≡ map (λ c. Int (cast_signed w32 c.number)) (filter (is_connection_of player) guard.now.board.now.connections)) }
{
    let connections = guard.board().connections().iter();
    let items = connections
        .filter(|c| c.is_of(player))
        .map(|c| number_item(c))
        .collect(guard.alloc())?;
    Ok(items)
}

/// The numbers of the connections of a player, and their count upon them.
#[tactic(auto, using(crate::proofs::Giving::shown_numbers))]
pub(crate) fn numbers_counted(guard: &Guard, player: Dbref) -> Result<Made, NoMemory>
    ensures { IfOk result (λ made. items_of made ≡ items_with_count (map number_item (filter (is_connection_of player) guard.now.board.now.connections))) }
{
    let numbers = number_values(guard, player)?;
    with_count(numbers)
}

// The players of the connections that have one.
fn players(guard: &Guard) -> Result<Vec<Dbref>, NoMemory>
    ensures { IfOk result (λ ds. ds.items ≡ players (world_of guard.now)) }
{
    let connections = guard.board().connections().iter();
    let players = connections
        .filter_map(|c| c.player())
        .collect(guard.alloc())?;
    Ok(players)
}

// The player at a place among these, from 1.
#[tactic(auto, using(crate::proofs::Giving::numbered_at))]
fn player_numbered(guard: &Guard, place: usize) -> Result<Option<Dbref>, NoMemory>
    ensures { IfOk result (λ d. d ≡ player_numbered place (world_of guard.now)) }
{
    let players = players(guard)?;
    if place == 0 {
        return Ok(None);
    }
    Ok(players.get(place - 1).copied())
}

/// The player at a place among those who are connected, from 1.
#[tactic(auto, using(crate::proofs::Giving::player_top))]
pub(crate) fn player_at(guard: &Guard, place: i32) -> Result<Option<Dbref>, NoMemory>
    ensures { IfOk result (λ d. d ≡ player_at place (world_of guard.now)) }
{
    if place < 0 {
        return Ok(None);
    }
    player_numbered(guard, place as usize)
}

/// How many connections have a player.
pub(crate) fn count_connected(guard: &Guard) -> usize
    ensures { result ≡ count_by has_player guard.now.board.now.connections }
{
    let connections = guard.board().connections().iter();
    connections.filter(|c| c.has_player()).count()
}

/// Whether somebody has that place.
#[tactic(auto, using(crate::proofs::Giving::place_top))]
pub(crate) fn is_place(guard: &Guard, place: i32) -> bool
    ensures { result ≡ is_place place (world_of guard.now) }
{
    if place < 0 {
        return false;
    }
    let place = place as usize;
    1 <= place && place <= count_connected(guard)
}

/// The objects among so many items below the two upper ones.
pub(crate) fn excluded(guard: &Guard, frame: &Frame, count: usize) -> Result<Vec<Dbref>, NoMemory>
    requires { count ≤ 2147483647 }
    ensures { IfOk result (λ ds. ds.items ≡ filter_map item_object (take count (drop 2 (flat frame.now).stack))) }
{
    let mut objects = Vec::new(guard.alloc());
    let mut at = 0;
    while at < count {
        if let Some(object) = frame.object_at(2 + at) {
            objects.push(object)?;
        }
        at += 1;
    }
    Ok(objects)
}

// The number of a connection that has a player.
fn seated(connection: &Connection) -> Option<u32>
    ensures { result ≡ seated_number connection.now }
{
    connection.player()?;
    Some(connection.number())
}

// The numbers of the connections that have one.
fn seats(guard: &Guard) -> Result<Vec<u32>, NoMemory>
    ensures { IfOk result (λ ds. ds.items ≡ filter_map seated_number guard.now.board.now.connections) }
{
    let connections = guard.board().connections().iter();
    let seats = connections
        .filter_map(|c| seated(c))
        .collect(guard.alloc())?;
    Ok(seats)
}

// The connection at a place among these, from 1.
#[tactic(auto, using(crate::proofs::Giving::seat_numbered_at))]
fn seat_numbered(guard: &Guard, place: usize) -> Result<Option<u32>, NoMemory>
    ensures { IfOk result (λ d. d ≡ seat_numbered place (world_of guard.now)) }
{
    let seats = seats(guard)?;
    if place == 0 {
        return Ok(None);
    }
    Ok(seats.get(place - 1).copied())
}

/// The connection at a place among those that have a player, from 1.
#[tactic(auto, using(crate::proofs::Giving::seat_top))]
pub(crate) fn seat_at(guard: &Guard, place: i32) -> Result<Option<u32>, NoMemory>
    ensures { IfOk result (λ d. d ≡ seat_at place (world_of guard.now)) }
{
    if place < 0 {
        return Ok(None);
    }
    seat_numbered(guard, place as usize)
}
