// What players say, and who hears it.
ghost use Rattle.std.specs.Prelude.{◌≡◌, IfOk};
ghost use Rattle.spec_live.specs.Lives.{tell, name_at};
ghost use Rattle.spec_commands.specs.Replies.{you_say_to, says_to, connected_count};
ghost use Rattle.spec_commands.specs.Finding.{for_each};
ghost use Rattle.spec_commands.specs.Talking.{said, pose_tail, posed, said_to, paged, is_company, whispered, presence, presences, presence_shown, who_shown};
ghost use Rattle.muck_perm.specs.inner.Guards.{Did, world_of};

use crate::texts::{around, joined};
use crate::typed::name_of;
use cmd_common::{cant_be_done, name_and, place_at, show_others};
use muck_board::{Board, Connection};
use muck_model::{Dbref, Kind, Line, NoMemory};
use muck_perm::Guard;
use spec_commands::Presence;
use std::alloc::Global;

/// The player says something: it sees its own words, and the others where it is see them with its name.
#[tactic(auto, unfolding(spec_live::specs::Lives::change_followed, spec_commands::specs::Talking::said, spec_commands::specs::Replies::you_say, spec_commands::specs::Replies::says))]
pub fn say(guard: &mut Guard, d: u32, text: &Line) -> Result<(), NoMemory>
    ensures { Did (said d guard.old.actor.player text.now) guard.old guard.new result }
{
    let yours = around(guard.alloc(), b"You say, \"", text.as_slice(), b"\"")?;
    guard.tell(d, &yours)?;
    let theirs = around(guard.alloc(), b" says, \"", text.as_slice(), b"\"")?;
    let player = guard.actor().player;
    show_others(guard, player, &theirs)
}

// What stands behind a player's name: a space comes first, but for an apostrophe.
fn pose_tail(alloc: Global, text: &[u8]) -> Result<Vec<u8>, NoMemory>
    ensures { IfOk result (λ tail. tail.items ≡ pose_tail text.now) }
{
    match text.first() {
        Some(first) if *first != b'\'' => joined(alloc, b" ", text),
        _ => joined(alloc, b"", text),
    }
}

/// The player does something: it and the others where it is see its name, and the text behind it.
#[tactic(auto, unfolding(spec_live::specs::Lives::change_followed, spec_live::specs::Lives::reading, spec_commands::specs::Talking::posed))]
pub fn pose(guard: &mut Guard, d: u32, text: &Line) -> Result<(), NoMemory>
    ensures { Did (posed d guard.old.actor.player text.now) guard.old guard.new result }
{
    let player = guard.actor().player;
    let tail = pose_tail(guard.alloc(), text.as_slice())?;
    let whole = name_and(guard, player, &tail)?;
    guard.tell(d, &whole)?;
    show_others(guard, player, &tail)?;
    Ok(())
}

// What a player sees of what it says to one alone.
#[tactic(auto, unfolding(spec_commands::specs::Replies::you_say_to))]
fn you_say_to(guard: &Guard, verb: &[u8], text: &[u8], to: Dbref) -> Result<Vec<u8>, NoMemory>
    ensures { IfOk result (λ v. v.items ≡ you_say_to verb.now text.now (name_at to (world_of guard.now))) }
{
    let head = around(guard.alloc(), b"You ", verb, b", \"")?;
    let tail = around(guard.alloc(), b"\" to ", name_of(guard, to), b".")?;
    around(guard.alloc(), &head, text, &tail)
}

// What that one sees behind the player's name.
#[tactic(auto, unfolding(spec_commands::specs::Replies::says_to))]
fn says_to(alloc: Global, verb: &[u8], text: &[u8]) -> Result<Vec<u8>, NoMemory>
    ensures { IfOk result (λ v. v.items ≡ says_to verb.now text.now) }
{
    let head = around(alloc, b" ", verb, b"s, \"")?;
    around(alloc, &head, text, b"\"")
}

// The player and one other see what was said to that one alone.
#[tactic(auto, unfolding(spec_live::specs::Lives::change_followed, spec_live::specs::Lives::reading, spec_commands::specs::Talking::said_to))]
fn say_to(guard: &mut Guard, d: u32, to: Dbref, verb: &[u8], text: &Line) -> Result<(), NoMemory>
    ensures { Did (said_to d guard.old.actor.player to verb.now text.now) guard.old guard.new result }
{
    let shown = you_say_to(guard, verb, text.as_slice(), to)?;
    guard.tell(d, &shown)?;
    let tail = says_to(guard.alloc(), verb, text.as_slice())?;
    let heard = name_and(guard, guard.actor().player, &tail)?;
    guard.tell_player(to, &heard)
}

/// The player says something to another one, who may be anywhere, but is connected.
#[tactic(auto, unfolding(spec_live::specs::Lives::reading, spec_live::specs::Lives::either, spec_commands::specs::Finding::where_so, spec_commands::specs::Talking::paged, spec_commands::specs::Replies::not_connected))]
pub fn page(guard: &mut Guard, d: u32, to: Dbref, text: &Line) -> Result<(), NoMemory>
    ensures { Did (paged d guard.old.actor.player to text.now) guard.old guard.new result }
{
    if guard.board().is_in(to) {
        say_to(guard, d, to, b"page", text)
    } else {
        let reply = name_and(guard, to, b" isn't connected.")?;
        guard.tell(d, &reply)
    }
}

// Whether it is a player, and where this player is.
#[tactic(auto, unfolding(spec_commands::specs::Finding::is_object_so))]
fn is_company(guard: &Guard, player: Dbref, to: Dbref) -> bool
    ensures { result ≡ is_company player to (world_of guard.now) }
{
    match guard.db().get(to) {
        Some(object) => {
            matches!(object.kind(), Kind::Player) && object.place() == place_at(guard, player)
        }
        None => false,
    }
}

/// The player says something to another one who is where it is.
#[tactic(auto, unfolding(spec_live::specs::Lives::reading, spec_live::specs::Lives::either, spec_commands::specs::Finding::where_so, spec_commands::specs::Talking::whispered))]
pub fn whisper(guard: &mut Guard, d: u32, to: Dbref, text: &Line) -> Result<(), NoMemory>
    ensures { Did (whispered d guard.old.actor.player to text.now) guard.old guard.new result }
{
    if !is_company(guard, guard.actor().player, to) {
        return cant_be_done(guard, d);
    }
    say_to(guard, d, to, b"whisper", text)
}

// A connection, where it has a player.
fn presence_of(connection: &Connection) -> Option<Presence>
    ensures { result ≡ presence connection.now }
{
    let player = connection.player()?;
    let number = connection.number();
    Some(Presence { number, player })
}

// The connections that have a player.
fn presences(alloc: Global, board: &Board) -> Result<Vec<Presence>, NoMemory>
    ensures { IfOk result (λ ps. ps.items ≡ presences board.now.connections) }
{
    let all = board
        .connections()
        .iter()
        .filter_map(|c| presence_of(c))
        .collect(alloc)?;
    Ok(all)
}

// The connection sees the player of another connection, and that one's number.
#[tactic(auto, unfolding(spec_live::specs::Lives::reading, spec_commands::specs::Replies::connected_line, spec_commands::specs::Talking::presence_shown))]
fn show_presence(guard: &mut Guard, d: u32, presence: Presence) -> Result<(), NoMemory>
    ensures { Did (presence_shown d presence) guard.old guard.new result }
{
    let number = presence.number;
    let mut text = name_and(guard, presence.player, b" (")?;
    let tail = format!(in guard.alloc(); "{number})")?;
    text.extend_from_slice(tail.as_bytes())?;
    guard.tell(d, &text)
}

// A line for each of these.
fn show_presences(guard: &mut Guard, d: u32, presences: &[Presence]) -> Result<(), NoMemory>
    ensures { Did (for_each (presence_shown d) presences.now) guard.old guard.new result }
{
    for presence in presences {
        show_presence(guard, d, *presence)?;
    }
    Ok(())
}

// The connection sees how many are connected.
#[tactic(auto, unfolding(spec_commands::specs::Replies::connected_count))]
fn show_count(guard: &mut Guard, d: u32, count: usize) -> Result<(), NoMemory>
    ensures { Did (tell d (connected_count count)) guard.old guard.new result }
{
    let text = format!(in guard.alloc(); "{count} connected.")?;
    guard.tell(d, text.as_bytes())
}

/// The connection sees the players who are connected, and how many they are.
#[tactic(auto, unfolding(spec_live::specs::Lives::reading, spec_live::specs::Lives::change_followed, spec_commands::specs::Talking::who_shown))]
pub fn who(guard: &mut Guard, d: u32) -> Result<(), NoMemory>
    ensures { Did (who_shown d) guard.old guard.new result }
{
    let present = presences(guard.alloc(), guard.board())?;
    show_presences(guard, d, &present)?;
    show_count(guard, d, present.len())
}
