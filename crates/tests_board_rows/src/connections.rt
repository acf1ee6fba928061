// The connections of a world.
use muck_board::Board;
use muck_db::Db;
use muck_model::{NoMemory, Tune};
use std::alloc::Global;
use tests_rows::{Words, add, line};

// Sends lines of ten digits, which count from 1000000000 on.
fn flood(alloc: Global, board: &mut Board, d: u32, count: u32) -> Result<(), NoMemory> {
    for i in 0..count {
        let line = format!(in alloc; "{}", 1_000_000_000 + u64::from(i))?;
        board.tell(d, line.as_bytes())?;
    }
    Ok(())
}

// A line comes.
fn add_line(alloc: Global, board: &mut Board, d: u32, text: &[u8]) -> Result<(), NoMemory> {
    let line = line(alloc, text)?;
    board.add_line(d, line)
}

/// `send open D TEXT`, `tell D TEXT`, `flood D COUNT`, `line D TEXT`, `player PLAYER TEXT`, `others ROOM PLAYER TEXT`,
/// `all TEXT`: connections that come, and what is sent.
pub fn send(
    alloc: Global,
    db: &Db,
    board: &mut Board,
    words: &mut Words<'_>,
) -> Result<(), NoMemory> {
    let verb = words.word();
    let all = words.left;
    let object = Words { left: all }.object();
    let d = words.number();
    let text = words.left;
    let other = words.object();
    match verb {
        b"open" => board.open(d, text),
        b"tell" => board.tell(d, text),
        b"flood" => flood(alloc, board, d, Words { left: text }.number()),
        b"line" => add_line(alloc, board, d, text),
        b"player" => board.tell_player(object, text),
        b"others" => board.tell_others(db, object, &[other], words.left),
        _ => board.tell_all(all),
    }
}

/// `board close D`, `leave D`, `seat D PLAYER`, `tune UNITS`, `boot PLAYER`: other changes.
pub fn board(board: &mut Board, words: &mut Words<'_>) {
    let verb = words.word();
    let object = Words { left: words.left }.object();
    let d = words.number();
    match verb {
        b"close" => board.close(d),
        b"leave" => board.leave(d),
        b"seat" => board.seat(d, words.object()),
        b"tune" => board.set_tune(Tune {
            m1_units: d,
            ..board.tune()
        }),
        _ => board.leave_player(object),
    }
}

// The first bytes that wait for a connection, at most so many.
fn taken(
    alloc: Global,
    out: &mut String,
    board: &mut Board,
    d: u32,
    most: u32,
) -> Result<(), NoMemory> {
    let mut bytes = vec![in alloc; 0; most as usize]?;
    let count = board.take(d, &mut bytes);
    bytes.truncate(count);
    add(out, &bytes)
}

// What is known of the connection at a place; it is found by its number too.
fn told(out: &mut String, board: &Board, at: usize) -> Result<(), NoMemory> {
    let Some(connection) = board.connections().get(at) else {
        return Ok(out.push_str("none")?);
    };
    let d = connection.number();
    let player = connection.player();
    let again = match board.connection(d) {
        Some(found) => found.player(),
        None => None,
    };
    write!(out, "{d}, {player:?}, {again:?}, ")?;
    let (queued, waiting) = (connection.queued(), connection.waiting());
    let (takes, leaving) = (connection.takes_line(), connection.is_leaving());
    let ready = connection.is_ready();
    write!(
        out,
        "{queued} bytes, {waiting} lines, takes {takes}, leaving {leaving}, ready {ready}"
    )?;
    Ok(())
}

// The lowest connection with a line that may be done.
fn first_ready(board: &Board) -> Option<u32> {
    let found = board.connections().iter().find(|c| c.is_ready())?;
    Some(found.number())
}

// The first line that waits is taken.
fn next(out: &mut String, board: &mut Board, d: u32) -> Result<(), NoMemory> {
    match board.take_line(d) {
        Some((player, line)) => {
            write!(out, "{player:?}, ")?;
            add(out, line.as_slice())
        }
        None => Ok(out.push_str("none")?),
    }
}

/// `ask take D MOST`, `at PLACE`, `has D`, `of PLAYER`, `next D`, `random`, `units`, `ready`, `count`: what is known of connections, and what is taken.
pub fn ask(
    alloc: Global,
    out: &mut String,
    board: &mut Board,
    words: &mut Words<'_>,
) -> Result<(), NoMemory> {
    let verb = words.word();
    let object = Words { left: words.left }.object();
    let d = words.number();
    match verb {
        b"take" => taken(alloc, out, board, d, words.number()),
        b"at" => told(out, board, d as usize),
        b"next" => next(out, board, d),
        b"has" => Ok(write!(out, "{}", board.connection(d).is_some())?),
        b"of" => Ok(write!(out, "{}", board.is_in(object))?),
        b"random" => Ok(write!(out, "{}", board.random())?),
        b"units" => Ok(write!(out, "{}", board.tune().m1_units)?),
        b"ready" => Ok(write!(out, "{:?}", first_ready(board))?),
        _ => Ok(write!(out, "{}", board.connections().len())?),
    }
}
