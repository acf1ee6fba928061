// Rows of connections and threads.
use crate::play::Play;
use crate::{cuts, sockets};
use muck_model::NoMemory;
use std::alloc::Global;
use std::net::Net;
use tests_rows::{Rows, Words};

/// What rows are tried on.
#[derive(Drop)]
pub struct Tried<R: Net + Copy> {
    alloc: Global,
    rt: R,
    // How many entries each of two threads made.
    entries: (u64, u64),
    play: Play,
}

impl<R: Net + Copy> Tried<R> {
    /// Without a step; two threads made so many entries.
    pub fn new(alloc: Global, rt: R, entries: (u64, u64)) -> Self {
        Tried {
            alloc,
            rt,
            entries,
            play: Play::new(alloc),
        }
    }

    // Adds what is made of a text by this word; answers whether the word is one of these rows.
    fn add(&mut self, out: &mut String, word: &[u8], text: &[u8]) -> Result<bool, NoMemory> {
        let alloc = self.alloc;
        let mut words = Words { left: text };
        let done = match word {
            b"cut" => cuts::cut(alloc, out, text),
            b"new" => Ok(self.play.renew()),
            b"step" => self.play.step(&mut words),
            b"turns" => Ok(write!(out, "{} and {}", self.entries.0, self.entries.1)?),
            b"sockets" => sockets::talk(&self.rt, alloc, out),
            b"port" => sockets::port_in_use(&self.rt, alloc, out),
            _ => return self.play.call(out, word, &mut words),
        };
        done?;
        Ok(true)
    }
}

impl<R: Net + Copy> Rows for Tried<R> {
    fn row(&mut self, word: &[u8], rest: &[u8]) -> Result<Option<Vec<u8>>, NoMemory> {
        let mut out = String::new(self.alloc);
        if !self.add(&mut out, word, rest)? {
            return Ok(None);
        }
        if out.is_empty() {
            out.push_str("done")?;
        }
        Ok(Some(out.into_bytes()))
    }
}
