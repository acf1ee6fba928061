// Three players in a room with many things: one says something again and again, and then looks around again and again.
use muck_board::Board;
use muck_db::{Db, DbFault};
use muck_model::{Dbref, Kind, Line, Tune};
use muck_perm::Guard;
use muck_queue::Queue;
use spec_rights::Actor;
use std::alloc::Global;

const ROOM_ZERO: Dbref = Dbref(0);

const ONE: Dbref = Dbref(1);

/// So many more objects of a kind in Room Zero.
pub(crate) fn make(db: &mut Db, alloc: Global, kind: Kind, count: u32) -> Option<()> {
    for _ in 0..count {
        let name = Line::of_text(alloc, b"Two").ok()?;
        db.create(alloc, kind, name, ONE, ROOM_ZERO).ok()?;
    }
    Some(())
}

// A connection for a player; `false` where memory was refused.
fn seat(board: &mut Board, d: u32, player: Dbref) -> bool {
    let is_open = board.open(d, b"hi").is_ok();
    board.seat(d, player);
    is_open
}

// A connection for each of the three players.
fn seat_all(board: &mut Board) -> Option<()> {
    let is_first = seat(board, 1, ONE);
    let is_second = seat(board, 2, Dbref(2));
    let is_third = seat(board, 3, Dbref(3));
    (is_first && is_second && is_third).then_some(())
}

// All that waits to be sent is taken; answers how many bytes.
fn taken(board: &mut Board, buf: &mut [u8]) -> u64 {
    let mut bytes = 0u64;
    for d in 1..4u32 {
        bytes = bytes.saturating_add(board.take(d, buf) as u64);
    }
    bytes
}

// One types a line.
fn typed(alloc: Global, db: &mut Db, board: &mut Board, line: &Line) -> Option<()> {
    let actor = Actor {
        level: 4,
        user: ONE,
        player: ONE,
    };
    let mut queue = Queue::new(alloc);
    let mut guard = Guard::new(alloc, db, board, actor);
    cmd_play::run(&mut guard, &mut queue, 1, line).ok()?;
    Some(())
}

// One types the line so many times; answers how many bytes were sent for it.
fn heard(alloc: Global, db: &mut Db, board: &mut Board, line: &[u8], count: u32) -> Option<u64> {
    let line = Line::new(alloc, line).ok()?;
    let mut buf = vec![in alloc; 0u8; 65_536].ok()?;
    let mut bytes = 0u64;
    for _ in 0..count {
        typed(alloc, db, board, &line)?;
        bytes = bytes.saturating_add(taken(board, &mut buf));
    }
    Some(bytes)
}

// So many lines are said there, and so many looks taken.
fn talked(alloc: Global, db: &mut Db, board: &mut Board, said: u32, looks: u32) -> Option<String> {
    seat_all(board)?;
    let said = heard(alloc, db, board, b"say How many are here today?", said)?;
    let seen = heard(alloc, db, board, b"look", looks)?;
    let bytes = said.saturating_add(seen);
    format!(in alloc; "{bytes} bytes").ok()
}

// Room Zero gets two more players, and so many things.
fn fill(alloc: Global, db: &mut Db, things: u32) -> Option<()> {
    make(db, alloc, Kind::Player, 2)?;
    make(db, alloc, Kind::Thing, things)
}

/// In a room of so many things so many lines are said, and so many looks taken; answers how many bytes the players were sent.
pub fn run(alloc: Global, things: u32, said: u32, looks: u32) -> Option<String> {
    let mut db = Db::starting(alloc).ok()?;
    fill(alloc, &mut db, things)?;
    let mut board = Board::new(alloc, 0, Tune::first());
    talked(alloc, &mut db, &mut board, said, looks)
}
