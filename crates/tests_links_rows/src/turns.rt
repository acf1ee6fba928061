// Two threads that take turns.
ghost use Rattle.std.specs.Prelude.{◌≡◌};
ghost use Rattle.tests_links_rows.specs.inner.Seats.{Rests, Leaves, SameLists};

use crate::book::{Book, enter};
use muck_io::{Rest, YieldRest};
use muck_model::NoMemory;
use std::alloc::Global;
use std::sync::Wait;
use std::thread::{Threads, join_mut};
use turn_lock::{Turn, TurnSeat};

// So many entries of this party, each in a turn of its own.
fn enter_all<W: Wait, R: Rest>(
    rt: &W,
    turn: &Turn<Book>,
    seat: &mut TurnSeat<Book>,
    party: u8,
    times: u32,
    rest: &R,
)
    requires own { seat.old.table_id ≡ turn.now.table.shared.table_id }
    requires rests { Rests party seat.old.me }
    ensures own { (seat.new.table_id ≡ seat.old.table_id) × (seat.new.id ≡ seat.old.id) }
    ensures left { Leaves seat.old.me seat.new.me }
{
    for _ in 0..times {
        let Ok(held) = turn.hold(rt, seat, rest) else {
            return;
        };
        let mut held = held;
        enter(&mut held.state, party);
        turn.give(seat, held, rest);
    }
}

// Both parties beside each other.
fn enter_both<W: Threads + Wait + Sync>(
    rt: &W,
    turn: &Turn<Book>,
    first: &mut TurnSeat<Book>,
    second: &mut TurnSeat<Book>,
    times: u32,
)
    requires own { (first.old.table_id ≡ turn.now.table.shared.table_id) × (second.old.table_id ≡ turn.now.table.shared.table_id) }
    requires rests { Rests 1 first.old.me × Rests 2 second.old.me }
    ensures own { (first.new.table_id ≡ first.old.table_id) × (second.new.table_id ≡ second.old.table_id) }
    ensures left { Leaves first.old.me first.new.me × Leaves second.old.me second.new.me }
{
    join_mut(
        rt,
        &mut ||
            requires { (first.now.table_id ≡ turn.now.table.shared.table_id) × Rests 1 first.now.me }
            ensures { (first.exit.now.table_id ≡ first.entry.now.table_id) × Leaves first.entry.now.me first.exit.now.me }
        { enter_all(rt, turn, first, 1, times, &YieldRest) },
        &mut ||
            requires { (second.now.table_id ≡ turn.now.table.shared.table_id) × Rests 2 second.now.me }
            ensures { (second.exit.now.table_id ≡ second.entry.now.table_id) × Leaves second.entry.now.me second.exit.now.me }
        { enter_all(rt, turn, second, 2, times, &YieldRest) },
    );
}

// What both parties made of a new book.
fn filled<W: Threads + Wait + Sync>(rt: &W, alloc: Global, times: u32) -> Result<Book, NoMemory> {
    let book = Book::new(alloc)?;
    let (turn, seat) = Turn::new(alloc, book)?;
    let mut seat = seat;
    let mut first = turn.split(&mut seat, 1);
    let mut second = turn.split(&mut seat, 2);
    enter_both(rt, &turn, &mut first, &mut second, times);
    turn.join(&mut seat, first);
    turn.join(&mut seat, second);
    Ok(turn.close(seat))
}

/// How many entries two threads make that take turns and make so many each.
pub fn made<W: Threads + Wait + Sync>(
    rt: &W,
    alloc: Global,
    times: u32,
) -> Result<(u64, u64), NoMemory> {
    let book = filled(rt, alloc, times)?;
    Ok((book.first, book.second))
}
