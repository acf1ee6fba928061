// How a text of a lock is read: in one pass, with a list of what waits.
ghost use Rattle.std.specs.Prelude.{◌≡◌, ◌≢◌, ◌<◌, ◌≤◌, ◌^◌, ◌∷◌, true, None, IfOk, IfSome, IfNone, length, reverse, slice_get, slice_index};
ghost use Rattle.muck_model.specs.Bytes.{text_fault};
ghost use Rattle.muck_lock.specs.Naming.{Naming, naming};
ghost use Rattle.muck_lock.specs.Grammar.{lock_of};
ghost use Rattle.muck_lock.specs.inner.Waiting.{ends, filled, place_behind, outcome_at, outcome_behind, LastStays, GoesOn, IsRead};

use crate::fault::LockFault;
use crate::key::{Finder, key_end, read_key};
use muck_model::{Boxed, Line, Lock, NoMemory};
use std::alloc::Global;

// What waits for the part that is being read.
#[derive(Drop)]
enum Waiting {
    // A `!`.
    Not,
    // A `(`.
    Group,
    // A lock and `&`.
    Both(Lock),
    // A lock and `|`.
    Either(Lock),
}

// What comes behind a lock that was read.
#[derive(Drop)]
enum Next {
    // A term from that place on.
    More { at: usize },
    // Nothing: that is the whole lock.
    Done(Lock),
}

impl Waiting {
    // Whether nothing more comes before this goes on, where that byte stands ahead.
    fn ends(&self, ahead: Option<u8>) -> bool
        ensures { result ≡ ends self.now ahead }
    {
        match self {
            Waiting::Not => true,
            Waiting::Group => ahead == Some(b')'),
            Waiting::Both(_) => ahead != Some(b'&'),
            Waiting::Either(_) => ahead != Some(b'&') && ahead != Some(b'|'),
        }
    }

    // Where this ends then.
    fn place_behind(&self, at: usize) -> usize
        requires { at < 2 ^ 63 }
        ensures { result ≡ place_behind self.now at }
    {
        match self {
            Waiting::Group => at + 1,
            Waiting::Not | Waiting::Both(_) | Waiting::Either(_) => at,
        }
    }

    // This with the lock that it waited for.
    fn filled(self, alloc: Global, lock: Lock) -> Result<Lock, NoMemory>
        ensures { IfOk result (λ l. l ≡ filled self lock) }
    {
        match self {
            Waiting::Not => Ok(Lock::Not(Boxed::new(alloc, lock)?)),
            Waiting::Group => Ok(lock),
            Waiting::Both(first) => {
                let first = Boxed::new(alloc, first)?;
                Ok(Lock::Both(first, Boxed::new(alloc, lock)?))
            }
            Waiting::Either(first) => {
                let first = Boxed::new(alloc, first)?;
                Ok(Lock::Either(first, Boxed::new(alloc, lock)?))
            }
        }
    }
}

// A lock that was read, and the place behind it.
#[derive(Drop)]
struct Piece {
    lock: Lock,
    end: usize,
}

fn byte_at(text: &[u8], at: usize) -> Option<u8>
    ensures { result ≡ slice_get text.now at }
{
    text.get(at).copied()
}

// Takes the last that waits, where it goes on with that byte ahead.
fn take_last(waiting: &mut Vec<Waiting>, ahead: Option<u8>) -> Option<Waiting>
    ensures taken { IfSome result (λ w. (reverse waiting.old.items ≡ w ∷ reverse waiting.new.items) × (ends w ahead ≡ true)) }
    ensures stays { IfNone result ((waiting.new.items ≡ waiting.old.items) × LastStays ahead (reverse waiting.old.items)) }
{
    if waiting.last()?.ends(ahead) {
        waiting.pop()
    } else {
        None
    }
}

// Puts the lock into all that waits for no more than it.
fn put_together(
    alloc: Global,
    text: &[u8],
    piece: Piece,
    waiting: &mut Vec<Waiting>,
) -> Result<Piece, NoMemory>
    requires { piece.end ≤ length text.now }
    ensures outcome { IfOk result (λ r. (names : Naming) → outcome_behind names text.now waiting.new.items r.lock r.end ≡ outcome_behind names text.now waiting.old.items piece.lock piece.end) }
    ensures end { IfOk result (λ r. (piece.end ≤ r.end) × (r.end ≤ length text.now)) }
    ensures stays { IfOk result (λ r. LastStays (slice_get text.now r.end) (reverse waiting.new.items)) }
{
    let Piece { mut lock, mut end } = piece;
    while let Some(last) = take_last(waiting, byte_at(text, end)) {
        end = last.place_behind(end);
        lock = last.filled(alloc, lock)?;
    }
    Ok(Piece { lock, end })
}

// What comes behind a lock for which nothing waits without more.
fn next_behind(text: &[u8], piece: Piece, waiting: &mut Vec<Waiting>) -> Result<Next, LockFault>
    requires end { piece.end ≤ length text.now }
    requires stays { LastStays (slice_get text.now piece.end) (reverse waiting.old.items) }
    ensures { (names : Naming) → GoesOn names text.now (outcome_behind names text.now waiting.old.items piece.lock piece.end) piece.end waiting.new.items result }
{
    let Piece { lock, end } = piece;
    match byte_at(text, end) {
        None => {
            if waiting.is_empty() {
                Ok(Next::Done(lock))
            } else {
                Err(LockFault::BadLock { at: end })
            }
        }
        Some(b'&') => {
            waiting.push(Waiting::Both(lock))?;
            Ok(Next::More { at: end + 1 })
        }
        Some(b'|') => {
            waiting.push(Waiting::Either(lock))?;
            Ok(Next::More { at: end + 1 })
        }
        Some(_) => Err(LockFault::BadLock { at: end }),
    }
}

// Reads the key at a place, and goes on behind it.
fn read_behind_key<F: Finder>(
    alloc: Global,
    finder: &F,
    text: &[u8],
    at: usize,
    waiting: &mut Vec<Waiting>,
) -> Result<Next, LockFault>
    requires inside { at < length text.now }
    requires text { text_fault text.now ≡ None }
    requires key { (slice_index text.now at ≢ 33) × (slice_index text.now at ≢ 40) }
    ensures { GoesOn (naming (F.found finder.now) (F.programs finder.now)) text.now (outcome_at (naming (F.found finder.now) (F.programs finder.now)) text.now waiting.old.items at) at waiting.new.items result }
{
    let rest = text.split_at(at).1;
    let size = key_end(rest);
    match read_key(alloc, finder, rest.split_at(size).0)? {
        None => Err(LockFault::BadLock { at }),
        Some(lock) => {
            let piece = Piece {
                lock,
                end: at + size,
            };
            let piece = put_together(alloc, text, piece, waiting)?;
            next_behind(text, piece, waiting)
        }
    }
}

// Reads a term, or what stands before it.
fn read_term<F: Finder>(
    alloc: Global,
    finder: &F,
    text: &[u8],
    at: usize,
    waiting: &mut Vec<Waiting>,
) -> Result<Next, LockFault>
    requires inside { at < length text.now }
    requires text { text_fault text.now ≡ None }
    ensures { GoesOn (naming (F.found finder.now) (F.programs finder.now)) text.now (outcome_at (naming (F.found finder.now) (F.programs finder.now)) text.now waiting.old.items at) at waiting.new.items result }
{
    match text[at] {
        b'!' => {
            waiting.push(Waiting::Not)?;
            Ok(Next::More { at: at + 1 })
        }
        b'(' => {
            waiting.push(Waiting::Group)?;
            Ok(Next::More { at: at + 1 })
        }
        _ => read_behind_key(alloc, finder, text, at, waiting),
    }
}

/// The lock that a text is read as. Parts with `|` between them are parts with `&` between them, which bind tighter, and
/// those are terms: `!` and a term, parts in parentheses, `#N`, `*PLAYER`, `PATH:VALUE` or a name. The empty text is the
/// free lock. `BadLock` comes exactly at the first place where the text goes wrong, a name isn't found or a key is a
/// program; a key goes wrong at its first byte. It needs no more of the program's stack for a text that is nested deeply.
pub fn read<F: Finder>(alloc: Global, text: &Line, finder: &F) -> Result<Lock, LockFault>
    ensures { IsRead (lock_of (naming (F.found finder.now) (F.programs finder.now)) text.now) result }
{
    let text = text.as_slice();
    if text.is_empty() {
        return Ok(Lock::Free);
    }
    let mut waiting = Vec::new(alloc);
    let mut at = 0;
    while at < text.len() {
        match read_term(alloc, finder, text, at, &mut waiting)? {
            Next::More { at: next } => at = next,
            Next::Done(lock) => return Ok(lock),
        }
    }
    Err(LockFault::BadLock { at })
}
