// Links in memory that play a script.
ghost use Rattle.std.specs.Prelude.{◌≤◌, length};

use muck_links::{LinkRead, LinkStep, LinkWhat, Links, ScriptLinks};
use muck_model::{ByteList, NoMemory};
use std::alloc::Global;
use std::mem;
use tests_rows::{Words, add, unfolded};

// The most bytes that a row reads at once.
const ROOM: usize = 64;

/// The steps that were written, and the links once they play.
#[derive(Drop)]
pub struct Play {
    alloc: Global,
    steps: Vec<LinkStep>,
    links: ScriptLinks,
    plays: bool,
}

// Which step a row has, if it has one.
fn what(alloc: Global, words: &mut Words<'_>) -> Result<Option<LinkWhat>, NoMemory> {
    Ok(match words.word() {
        b"accept" => Some(LinkWhat::Accept(words.number())),
        b"bytes" => {
            let d = words.number();
            let bytes = unfolded(alloc, words.left)?;
            Some(LinkWhat::Bytes(d, ByteList::of(bytes)))
        }
        b"end" => Some(LinkWhat::End(words.number())),
        b"ended" => Some(LinkWhat::Ended),
        b"fail-read" => Some(LinkWhat::FailRead(words.number())),
        b"fail-write" => Some(LinkWhat::FailWrite(words.number())),
        b"fail-listen" => Some(LinkWhat::FailListen),
        b"fail-accept" => Some(LinkWhat::FailAccept),
        _ => None,
    })
}

impl Play {
    /// No step.
    pub fn new(alloc: Global) -> Play {
        Play {
            alloc,
            steps: Vec::new(alloc),
            links: ScriptLinks::new(alloc, Vec::new(alloc)),
            plays: false,
        }
    }

    /// Begins anew.
    pub fn renew(&mut self) {
        *self = Play::new(self.alloc);
    }

    /// `step AFTER WHAT ..`: a step more.
    pub fn step(&mut self, words: &mut Words<'_>) -> Result<(), NoMemory> {
        let after = u64::from(words.number());
        if let Some(what) = what(self.alloc, words)? {
            self.steps.push(LinkStep { after, what })?;
        }
        Ok(())
    }

    // The links, which play the steps from now on.
    fn begin(&mut self) {
        if !self.plays {
            let steps = mem::replace(&mut self.steps, Vec::new(self.alloc));
            self.links = ScriptLinks::new(self.alloc, steps);
            self.plays = true;
        }
    }

    // `read D ROOM`: what a read answers, and its bytes.
    fn read(&mut self, out: &mut String, words: &mut Words<'_>) -> Result<(), NoMemory> {
        let d = words.number();
        let room = (words.number() as usize).min(ROOM);
        let mut buf = [0u8; ROOM];
        let answer = self.links.read(d, &mut buf[..room]);
        write!(out, "{answer:?}")?;
        if let LinkRead::Got(n) = answer {
            out.push(' ')?;
            add(out, &buf[..n.min(ROOM)])?;
        }
        Ok(())
    }

    /// A call of the links, and what it answers; false where the word is none.
    pub fn call(
        &mut self,
        out: &mut String,
        word: &[u8],
        words: &mut Words<'_>,
    ) -> Result<bool, NoMemory> {
        self.begin();
        match word {
            b"listen" => {
                let port = u16::try_from(words.number()).unwrap_or(0);
                write!(out, "{:?}", self.links.listen(port))?;
            }
            b"accept" => write!(out, "{:?}", self.links.accept())?,
            b"read" => self.read(out, words)?,
            b"write" => {
                let d = words.number();
                let bytes = unfolded(self.alloc, words.left)?;
                write!(out, "{:?}", self.links.write(d, &bytes))?;
            }
            b"close" => self.links.close(words.number()),
            b"written" => match self.links.written(words.number()) {
                Some(bytes) => add(out, bytes)?,
                None => out.push_str("no link")?,
            },
            _ => return Ok(false),
        }
        Ok(true)
    }
}
