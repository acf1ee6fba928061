// What is kept of a link, and its calls.
ghost use Rattle.std.specs.Prelude.{◌≡◌, ◌≢◌, ◌≤◌, ◌<◌, ◌↔◌, [], ℕ, IsTrue, IfOk, OnOk, OnErr, length, true, is_some};
ghost use Rattle.spec_serve.specs.Marks.{LinksNote};
ghost use Rattle.spec_serve.specs.inner.Keeping.{new_peer};
ghost use Rattle.muck_peer.specs.Moves.{LinkStep, LinkLoss};

use muck_links::{LineCutter, LinkRead, LinkWrite, Links};
use muck_model::NoMemory;
use std::alloc::Global;
use std::marker::Model;

/// As many bytes as are kept of a connection whose output was written: most that it is sent at once fits.
const ROOM_LEAST: usize = 256;

// So many times what is queued for a connection may wait while lines come, so that more of it goes out in one write.
const WAITS_MOST: usize = 8;

/// A link that is open: its cutter, the bytes that were taken and not written yet, and what it answered.
#[derive(Drop)]
pub struct Peer {
    alloc: Global,
    pub(crate) number: u32,
    pub(crate) cutter: LineCutter,
    pub(crate) buffer: Vec<u8>,
    pub(crate) at: usize,
    pub(crate) len: usize,
    // How many lines were entered since bytes were taken.
    pub(crate) entered: usize,
    // How often it was held back since bytes were taken.
    pub(crate) held: usize,
    // Whether it is held back now.
    pub(crate) waits: bool,
    // Whether a read answered the end.
    pub(crate) ended: bool,
    // Whether a read or a write failed.
    pub(crate) faulted: bool,
    // Whether a write was refused after the end.
    pub(crate) refused: bool,
    // Whether a write was refused after the note of the links.
    pub(crate) stalled: bool,
}

impl Model for Peer {
    ghost use Rattle.std.specs.Prelude.{◌≤◌, ◌<◌, drop, take, length};
    ghost use Rattle.spec_serve.specs.inner.Keeping.{Peer as Link};

    ghost Value = { Link };

    ghost view = { λ p. record { number = p.number; cut = p.cutter; unsent = drop p.at (take p.len p.buffer.items); ended = p.ended; faulted = p.faulted; refused = p.refused; stalled = p.stalled } };

    ghost invariant = { λ p. (p.at ≤ p.len) × (p.len ≤ length p.buffer.items) × (0 < length p.buffer.items) };
}

// So many bytes, or the least.
fn at_least(bytes: usize) -> usize
    ensures { 0 < result }
{
    if bytes < ROOM_LEAST {
        ROOM_LEAST
    } else {
        bytes
    }
}

// Room for so many bytes, or the least.
fn room(alloc: Global, bytes: usize) -> Result<Vec<u8>, NoMemory>
    ensures { IfOk result (λ v. 0 < length v.items) }
{
    let v = vec![in alloc; 0u8; at_least(bytes)]?;
    Ok(v)
}

impl Peer {
    /// A link that came, from which nothing was read.
    pub fn new(alloc: Global, number: u32) -> Result<Peer, NoMemory>
        ensures { IfOk result (λ p. p ≡ new_peer number) }
    {
        let buffer = room(alloc, ROOM_LEAST)?;
        Ok(Peer {
            alloc,
            number,
            cutter: LineCutter::new(alloc)?,
            buffer,
            at: 0,
            len: 0,
            entered: 0,
            held: 0,
            waits: false,
            ended: false,
            faulted: false,
            refused: false,
            stalled: false,
        })
    }

    /// The number of the link and of its connection.
    pub fn number(&self) -> u32
        ensures { result ≡ self.now.number }
    {
        self.number
    }

    /// Whether a whole line was read and not entered yet. Nothing depends on the answer but when something is done.
    pub fn has_line(&self) -> bool {
        self.cutter.has_line()
    }

    /// Holds back what is queued for the connection while lines come, a few times, so that more of it goes out in one write; answers whether it does.
    pub fn holds_back(&mut self, lines_come: bool) -> bool
        ensures { self.new ≡ self.old }
    {
        self.waits = lines_come && self.held < WAITS_MOST;
        if self.waits {
            self.held += 1;
        }
        self.waits
    }

    /// Whether bytes were taken and not written yet.
    pub(crate) fn has_unsent(&self) -> bool
        ensures { IsTrue result ↔ (self.now.unsent ≢ []) }
    {
        self.at < self.len
    }

    // There is room for so many bytes, where there is memory for it.
    fn has_room(&mut self, bytes: usize)
        requires { self.old.unsent ≡ [] }
        ensures { self.new ≡ self.old }
    {
        if let Ok(buffer) = room(self.alloc, bytes) {
            self.at = 0;
            self.len = 0;
            self.buffer = buffer;
        }
    }

    /// There is room for all that is queued, so that it goes out in one write; where memory is wanted for that, in several.
    pub(crate) fn widens(&mut self, queued: usize)
        requires { self.old.unsent ≡ [] }
        ensures { self.new ≡ self.old }
    {
        if queued > self.buffer.len() {
            self.has_room(queued);
        }
    }

    // What was written takes no room any more.
    fn narrows(&mut self)
        ensures { self.new ≡ self.old }
    {
        if !self.has_unsent() && self.buffer.len() > ROOM_LEAST {
            self.has_room(ROOM_LEAST);
        }
    }

    // Reads once; answers whether anything came. After `NoMemory` what was read is lost.
    fn hears<L: Links>(&mut self, links: &mut L, room: &mut [u8]) -> Result<bool, NoMemory>
        ensures tells { L.tells links.new ≡ L.tells links.old }
        ensures listening { L.listening links.new ≡ L.listening links.old }
        ensures ok { OnOk result (L.tells links.old ≡ true → (counted : LinksNote) → LinkStep counted self.old self.new (L.told links.old) (L.told links.new)) }
        ensures err { OnErr result (L.tells links.old ≡ true → (counted : LinksNote) → LinkLoss counted self.old (L.told links.old) (L.told links.new)) }
    {
        match links.read(self.number, room) {
            LinkRead::Got(n) => {
                self.cutter.feed(room.split_at(n).0)?;
                Ok(true)
            }
            LinkRead::End => {
                self.ended = true;
                Ok(true)
            }
            LinkRead::NotYet => Ok(false),
            LinkRead::Fault => {
                self.faulted = true;
                Ok(true)
            }
        }
    }

    // Writes once what is kept; answers whether anything went. `noted` tells whether the note of the links was made.
    fn sends<L: Links>(&mut self, links: &mut L, noted: bool) -> bool
        ensures tells { L.tells links.new ≡ L.tells links.old }
        ensures listening { L.listening links.new ≡ L.listening links.old }
        ensures step { L.tells links.old ≡ true → (counted : LinksNote) → is_some counted ≡ noted → LinkStep counted self.old self.new (L.told links.old) (L.told links.new) }
    {
        let bytes = self
            .buffer
            .as_slice()
            .split_at(self.len)
            .0
            .split_at(self.at)
            .1;
        match links.write(self.number, bytes) {
            LinkWrite::Put(n) => {
                self.at += n;
                n > 0
            }
            LinkWrite::NotYet => {
                self.refused = self.ended;
                self.stalled = noted;
                false
            }
            LinkWrite::Fault => {
                self.faulted = true;
                true
            }
        }
    }

    /// Reads once, where no whole line is kept and the link neither ended nor failed; answers whether anything came. After
    /// `NoMemory` what was read is lost.
    pub fn hears_some<L: Links>(&mut self, links: &mut L, room: &mut [u8]) -> Result<bool, NoMemory>
        ensures tells { L.tells links.new ≡ L.tells links.old }
        ensures listening { L.listening links.new ≡ L.listening links.old }
        ensures ok { OnOk result (L.tells links.old ≡ true → (counted : LinksNote) → LinkStep counted self.old self.new (L.told links.old) (L.told links.new)) }
        ensures err { OnErr result (L.tells links.old ≡ true → (counted : LinksNote) → LinkLoss counted self.old (L.told links.old) (L.told links.new)) }
    {
        if self.ended || self.faulted || self.cutter.has_line() {
            return Ok(false);
        }
        match self.hears(links, room) {
            Ok(came) => Ok(came),
            Err(e) => Err(e),
        }
    }

    /// Writes once what is kept, unless the link failed; answers whether anything went. `noted` tells whether the note of the links
    /// was made. It takes no memory.
    pub fn sends_some<L: Links>(&mut self, links: &mut L, noted: bool) -> bool
        ensures tells { L.tells links.new ≡ L.tells links.old }
        ensures listening { L.listening links.new ≡ L.listening links.old }
        ensures step { L.tells links.old ≡ true → (counted : LinksNote) → is_some counted ≡ noted → LinkStep counted self.old self.new (L.told links.old) (L.told links.new) }
    {
        if self.faulted || !self.has_unsent() {
            return false;
        }
        let went = self.sends(links, noted);
        self.narrows();
        went
    }
}
