// The sessions of links in memory, the latest first.
ghost use Rattle.std.specs.Prelude.{◌≡◌, ◌≤◌, OnOk, OnErr, length, List, ℕ};
ghost use Rattle.std.specs.List.{position, position_or_len};
ghost use Rattle.muck_links.specs.Keyed.{altered};
ghost use Rattle.muck_links.specs.Sessions.{session_number, has_number, accepted};
ghost use Rattle.muck_links.specs.inner.Marks.{marked, carried};

use muck_model::NoMemory;
use std::alloc::Global;
use std::marker::Model;

// What befalls a session and takes no memory.
#[derive(Clone, Copy)]
pub(crate) enum Mark {
    Ended,
    Failed,
    Closed,
}

// Which way bytes go.
#[derive(Clone, Copy)]
pub(crate) enum Way {
    Read,
    Written,
}

// One acceptance.
#[derive(Drop)]
pub(crate) struct Link {
    number: u32,
    read: Vec<u8>,
    written: Vec<u8>,
    ended: Option<u64>,
    faults: u64,
    refused: u64,
    in_use: bool,
}

impl Model for Link {
    ghost use Rattle.muck_links.specs.Sessions.{Session};

    ghost Value = { Session };

    ghost view = { λ s. record { number = s.number; read = s.read.items; written = s.written.items; ended = s.ended; faults = s.faults; refused = s.refused; in_use = s.in_use } };
}

impl Link {
    pub(crate) fn new(alloc: Global, number: u32) -> Link
        ensures { result ≡ accepted number }
    {
        Link {
            number,
            read: Vec::new(alloc),
            written: Vec::new(alloc),
            ended: None,
            faults: 0,
            refused: 0,
            in_use: true,
        }
    }

    pub(crate) fn number(&self) -> u32
        ensures { result ≡ self.now.number }
    {
        self.number
    }

    pub(crate) fn written(&self) -> &[u8]
        ensures { result.now ≡ self.now.written }
    {
        self.written.as_slice()
    }

    pub(crate) fn is_in_use(&self) -> bool
        ensures { result ≡ self.now.in_use }
    {
        self.in_use
    }

    fn mark(&mut self, mark: Mark)
        ensures { self.new ≡ marked mark self.old }
    {
        match mark {
            Mark::Ended => {
                if self.ended.is_none() {
                    self.ended = Some(self.refused);
                }
            }
            Mark::Failed => self.faults = self.faults.saturating_add(1),
            Mark::Closed => self.in_use = false,
        }
    }

    fn carry(&mut self, way: Way, bytes: &[u8]) -> Result<(), NoMemory>
        ensures ok { OnOk result (self.new ≡ carried way bytes.now self.old) }
        ensures err { OnErr result (self.new ≡ self.old) }
    {
        match way {
            Way::Read => self.read.extend_from_slice(bytes)?,
            Way::Written => self.written.extend_from_slice(bytes)?,
        }
        Ok(())
    }
}

fn found_at(links: &[Link], d: u32) -> Option<usize>
    ensures { result ≡ position (has_number d) links.now }
{
    links.iter().position(|s| s.number() == d)
}

// Where the latest session of the number is, or past the end.
#[tactic(auto, using(crate::proofs::Positions::positions))]
fn place_of(links: &Vec<Link>, d: u32) -> usize
    ensures at { result ≡ position_or_len (has_number d) links.now.items }
    ensures within { result ≤ length links.now.items }
{
    found_at(links, d).unwrap_or(links.len())
}

// Marks the latest session of the number.
pub(crate) fn marks(links: &mut Vec<Link>, d: u32, mark: Mark)
    ensures { links.new.items ≡ altered session_number d (marked mark) links.old.items }
{
    let at = place_of(links, d);
    if at < links.len() {
        let s = &mut links[at];
        s.mark(mark);
    }
}

// Keeps bytes with the latest session of the number.
pub(crate) fn carries(links: &mut Vec<Link>, d: u32, way: Way, bytes: &[u8]) -> Result<(), NoMemory>
    ensures ok { OnOk result (links.new.items ≡ altered session_number d (carried way bytes.now) links.old.items) }
    ensures err { OnErr result (links.new.items ≡ links.old.items) }
{
    let at = place_of(links, d);
    if at < links.len() {
        let s = &mut links[at];
        s.carry(way, bytes)?;
    }
    Ok(())
}
