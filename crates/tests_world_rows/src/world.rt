// What rows are tried on.
use crate::{locks, matching, objects, rules};
use muck_board::Board;
use muck_db::Db;
use muck_model::{NoMemory, Tune};
use std::alloc::Global;
use tests_rows::{Rows, Words, unfolded};

/// Objects, and connections that hear what a guard tells.
#[derive(Drop)]
pub struct World {
    alloc: Global,
    db: Db,
    board: Board,
}

impl World {
    /// The first objects, and no connection.
    pub fn new(alloc: Global) -> Result<World, NoMemory> {
        let db = Db::starting(alloc)?;
        Ok(World {
            alloc,
            db,
            board: Board::new(alloc, 0, Tune::first()),
        })
    }

    // Begins anew.
    fn renew(&mut self) -> Result<(), NoMemory> {
        let new = World::new(self.alloc)?;
        *self = new;
        Ok(())
    }

    // Adds what is made of a text by this word; answers whether the word is one of these.
    fn add(&mut self, out: &mut String, word: &[u8], text: &[u8]) -> Result<bool, NoMemory> {
        let alloc = self.alloc;
        let mut words = Words { left: text };
        let done = match word {
            b"opens" => locks::opens_for(alloc, out, &self.db, text),
            b"find" => matching::named(alloc, out, &self.db, text),
            b"exit" => matching::exit(alloc, out, &self.db, text),
            b"player" => matching::player_of(alloc, out, &self.db, text),
            b"db" => objects::db(alloc, out, &mut self.db, &mut words),
            b"set" => objects::set(alloc, out, &mut self.db, &mut words),
            b"verdict" => rules::ruled(alloc, out, &self.db, &mut words),
            b"runs" => rules::runs(out, &self.db, &mut words),
            b"shown" => rules::shown(alloc, out, &self.db, &mut words),
            b"password" => rules::password(alloc, out, &mut self.db, &mut self.board, &mut words),
            b"send" | b"board" | b"ask" => rules::hear(alloc, out, &mut self.board, &mut words),
            b"new" => self.renew(),
            _ => return Ok(false),
        };
        done?;
        Ok(true)
    }
}

impl Rows for World {
    fn row(&mut self, word: &[u8], rest: &[u8]) -> Result<Option<Vec<u8>>, NoMemory> {
        let text = unfolded(self.alloc, rest)?;
        let mut out = String::new(self.alloc);
        if !self.add(&mut out, word, &text)? {
            return Ok(None);
        }
        if out.is_empty() {
            out.push_str("done")?;
        }
        Ok(Some(out.into_bytes()))
    }
}
