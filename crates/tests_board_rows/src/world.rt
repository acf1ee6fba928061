// What rows are tried on.
use crate::{connections, processes};
use muck_board::Board;
use muck_db::Db;
use muck_model::{Kind, NoMemory, Tune};
use muck_queue::Queue;
use std::alloc::Global;
use tests_rows::{Rows, Words, name, unfolded};

/// At most 4 processes, and 3 of a player.
pub fn tune() -> Tune {
    let mut tune = Tune::first();
    tune.process_limit = 4;
    tune.player_processes = 3;
    tune
}

/// Connections, the objects that hear through them, and processes.
#[derive(Drop)]
pub struct World {
    alloc: Global,
    db: Db,
    board: Board,
    queue: Queue,
}

impl World {
    /// The first objects, no connection and no process.
    pub fn new(alloc: Global) -> Result<World, NoMemory> {
        let db = Db::starting(alloc)?;
        Ok(World {
            alloc,
            db,
            board: Board::new(alloc, 0, tune()),
            queue: Queue::new(alloc),
        })
    }

    // Begins anew.
    fn renew(&mut self) -> Result<(), NoMemory> {
        let new = World::new(self.alloc)?;
        *self = new;
        Ok(())
    }

    // `db create KIND OWNER PLACE NAME`: a player or a room.
    fn create(&mut self, out: &mut String, words: &mut Words<'_>) -> Result<(), NoMemory> {
        let _create = words.word();
        let kind = if words.word() == b"P".as_slice() {
            Kind::Player
        } else {
            Kind::Room
        };
        let owner = words.object();
        let place = words.object();
        let name = name(self.alloc, words.left)?;
        let made = self.db.create(self.alloc, kind, name, owner, place);
        write!(out, "{made:?}")?;
        Ok(())
    }

    // `set move OBJECT PLACE`.
    fn move_to(&mut self, out: &mut String, words: &mut Words<'_>) -> Result<(), NoMemory> {
        let _move = words.word();
        let object = words.object();
        let moved = self.db.move_to(object, words.object());
        write!(out, "{moved:?}")?;
        Ok(())
    }

    // Adds what is made of a text by this word; answers whether the word is one of these.
    fn add(&mut self, out: &mut String, word: &[u8], text: &[u8]) -> Result<bool, NoMemory> {
        let alloc = self.alloc;
        let mut words = Words { left: text };
        let done = match word {
            b"db" => self.create(out, &mut words),
            b"set" => self.move_to(out, &mut words),
            b"send" => connections::send(alloc, &self.db, &mut self.board, &mut words),
            b"board" => Ok(connections::board(&mut self.board, &mut words)),
            b"ask" => connections::ask(alloc, out, &mut self.board, &mut words),
            b"queue" => processes::queue(alloc, out, &mut self.queue, &mut words),
            b"wait" => processes::wait(alloc, out, &mut self.queue, &mut words),
            b"end" => Ok(processes::end(&mut self.queue, &mut words)),
            b"new" => self.renew(),
            _ => return Ok(false),
        };
        done?;
        Ok(true)
    }
}

impl Rows for World {
    fn row(&mut self, word: &[u8], rest: &[u8]) -> Result<Option<Vec<u8>>, NoMemory> {
        let text = unfolded(self.alloc, rest)?;
        let mut out = String::new(self.alloc);
        if !self.add(&mut out, word, &text)? {
            return Ok(None);
        }
        if out.is_empty() {
            out.push_str("done")?;
        }
        Ok(Some(out.into_bytes()))
    }
}
