// Messages over a world.
use muck_board::Board;
use muck_db::Db;
use muck_model::{Dbref, Flags, Kind, NoMemory, Tune};
use muck_mpi::speak;
use muck_perm::Guard;
use spec_rights::Actor;
use std::alloc::Global;
use tests_rows::{Rows, Words, add, line, name};

/// The most bytes that are taken from a connection.
const MOST: usize = 5000;

/// A world, and who acts in it.
#[derive(Drop)]
pub struct Messages {
    alloc: Global,
    db: Db,
    board: Board,
    actor: Actor,
}

impl Messages {
    /// The first objects, no connection, and `One` acts.
    pub fn new(alloc: Global) -> Result<Messages, NoMemory> {
        let db = Db::starting(alloc)?;
        Ok(Messages {
            alloc,
            db,
            board: Board::new(alloc, 0, Tune::first()),
            actor: Actor {
                level: 4,
                user: Dbref(1),
                player: Dbref(1),
            },
        })
    }

    // Sets who acts.
    fn act(&mut self, words: &mut Words<'_>) {
        let level = (words.number() % 5) as u8;
        let user = words.object();
        let player = words.object();
        self.actor = Actor {
            level,
            user,
            player,
        };
    }

    // Makes an object.
    fn make(&mut self, out: &mut String, words: &mut Words<'_>) -> Result<(), NoMemory> {
        let kind = match words.word() {
            b"P" => Kind::Player,
            b"R" => Kind::Room,
            b"E" => Kind::Exit,
            b"F" => Kind::Program,
            _ => Kind::Thing,
        };
        let owner = words.object();
        let place = words.object();
        let name = name(self.alloc, words.left)?;
        let made = self.db.create(self.alloc, kind, name, owner, place);
        write!(out, "{made:?}")?;
        Ok(())
    }

    // Gives an object flags.
    fn flag(&mut self, out: &mut String, words: &mut Words<'_>) -> Result<(), NoMemory> {
        let object = words.object();
        let flags = Flags((words.number() % 16_384) as u16);
        let set = self.db.set_flags(object, flags);
        write!(out, "{set:?}")?;
        Ok(())
    }

    // What is shown of a message.
    fn message(&mut self, out: &mut String, text: &[u8]) -> Result<(), NoMemory> {
        let alloc = self.alloc;
        let text = line(alloc, text)?;
        let word = line(alloc, b"look")?;
        let rest = line(alloc, b"at")?;
        let mut guard = Guard::new(alloc, &mut self.db, &mut self.board, self.actor);
        let shown = speak(&mut guard, Dbref(0), b"(@desc)", &word, &rest, text)?;
        add(out, shown.as_slice())
    }

    // A connection of a player.
    fn hears(&mut self, words: &mut Words<'_>) -> Result<(), NoMemory> {
        let d = words.number();
        self.board.open(d, b"")?;
        self.board.seat(d, words.object());
        Ok(())
    }

    // What waits on a connection.
    fn heard(&mut self, out: &mut String, words: &mut Words<'_>) -> Result<(), NoMemory> {
        let d = words.number();
        let mut bytes = vec![in self.alloc; 0; MOST]?;
        let count = self.board.take(d, &mut bytes);
        bytes.truncate(count);
        add(out, &bytes)
    }

    // Adds what is made of a text by this word; answers whether the word is one of these.
    fn add(&mut self, out: &mut String, word: &[u8], text: &[u8]) -> Result<bool, NoMemory> {
        let mut words = Words { left: text };
        let done = match word {
            b"message" => self.message(out, text),
            b"acts" => Ok(self.act(&mut words)),
            b"make" => self.make(out, &mut words),
            b"flag" => self.flag(out, &mut words),
            b"hears" => self.hears(&mut words),
            b"heard" => self.heard(out, &mut words),
            _ => return Ok(false),
        };
        done?;
        Ok(true)
    }
}

impl Rows for Messages {
    fn row(&mut self, word: &[u8], rest: &[u8]) -> Result<Option<Vec<u8>>, NoMemory> {
        let mut out = String::new(self.alloc);
        if !self.add(&mut out, word, rest)? {
            return Ok(None);
        }
        if out.is_empty() {
            out.push_str("done")?;
        }
        Ok(Some(out.into_bytes()))
    }
}
