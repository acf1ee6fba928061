// What rows want of a server.
use crate::script::links;
use muck_io::ListClock;
use muck_links::ScriptLinks;
use muck_model::NoMemory;
use std::alloc::Global;
use tests_rows::Words;

/// What is wanted of the next server: the steps of its links, a row each, the last second of its clock, and which call of its first disk fails.
#[derive(Drop)]
pub struct Wanted {
    alloc: Global,
    steps: Vec<u8>,
    seconds: u32,
    fails: u32,
}

impl Wanted {
    /// No step, a clock that stands still, and a disk that fails no call.
    pub fn new(alloc: Global) -> Self {
        Wanted {
            alloc,
            steps: Vec::new(alloc),
            seconds: 0,
            fails: u32::MAX,
        }
    }

    // A step more.
    fn step(&mut self, row: &[u8]) -> Result<(), NoMemory> {
        self.steps.extend_from_slice(row)?;
        self.steps.push(b'\n')?;
        Ok(())
    }

    /// Takes in a row of this word; answers whether the word says what is wanted.
    pub fn take(&mut self, word: &[u8], rest: &[u8]) -> Result<bool, NoMemory> {
        let mut words = Words { left: rest };
        match word {
            b"new" => *self = Wanted::new(self.alloc),
            b"step" => self.step(rest)?,
            b"clock" => self.seconds = words.number(),
            b"fail-disk" => self.fails = words.number(),
            _ => return Ok(false),
        }
        Ok(true)
    }

    /// Links that play the steps.
    pub fn links(&self) -> Result<ScriptLinks, NoMemory> {
        links(self.alloc, &self.steps)
    }

    /// A clock that counts from 0 and stands still at the last second.
    pub fn clock(&self) -> Result<ListClock, NoMemory> {
        let mut answers = Vec::new(self.alloc);
        for second in 0..=self.seconds {
            answers.push(u64::from(second))?;
        }
        Ok(ListClock::new(answers))
    }

    /// Which call of the first disk fails.
    pub fn fails(&self) -> u64 {
        u64::from(self.fails)
    }
}
