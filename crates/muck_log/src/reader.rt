// A file, read byte by byte.
ghost use Rattle.std.specs.Prelude.{◌≡◌, ◌≤◌, ◌<◌, ◌+◌, ◌-◌, ◌^◌, List, ℕ, length, take, true, OnOk, IfOk, IfErr};
ghost use Rattle.muck_log.specs.File.{gate_at, begin, byte_step, run, reached, length_read, body_judged, forgotten, join, follows};
ghost use Rattle.muck_log.specs.declared.reader.Mode.TheVariants.{Broken};
ghost use Rattle.muck_log.specs.inner.Head.{IsJoined, IsParts, is_over};
ghost use Rattle.muck_log.specs.World.{IsFine};
ghost use Rattle.std.specs.Int.{w64, from_be_bytes};

use crate::body::{Head, head_of, word_at};
use crate::{Kept, LogFault};
use std::alloc::Global;
use std::marker::Model;

// The part of a file that stands next.
#[derive(Clone, Copy, PartialEq, Eq, Debug)]
pub enum Mode {
    Gate,
    Size,
    Body,
    Shut,
    Broken,
}

// A reading of a file so far.
#[derive(Drop)]
pub struct Reader {
    place: u64,
    mode: Mode,
    size: u64,
    bytes: Vec<u8>,
    generation: u64,
    number: u64,
    count: u64,
    last: u64,
    world: Kept,
}

impl Model for Reader {
    ghost use Rattle.std.specs.Prelude.{◌≤◌};
    ghost use Rattle.muck_log.specs.File.{FileReading};
    ghost use Rattle.muck_log.specs.inner.Head.{IsFineIn};

    ghost Value = { FileReading };

    ghost view = { λ r. record { place = r.place; mode = r.mode; size = r.size; bytes = r.bytes.items; held = record { generation = r.generation; number = r.number; count = r.count; last = r.last; world = r.world } } };

    ghost invariant = { λ r. (r.count ≤ r.place) × IsFineIn r.mode r.world };
}

impl Reader {
    #[tactic(auto, unfolding(crate::specs::File::gate_at, crate::specs::File::begin))]
    pub(crate) fn new(alloc: Global, generation: u64) -> Result<Reader, LogFault>
        ensures ok { IfOk result (λ r. r ≡ gate_at 0 (begin generation)) }
        ensures err { IfErr result (λ e. e ≡ LogFault.NoMemory) }
    {
        let world = Kept::starting(alloc)?;
        Ok(Reader {
            place: 0,
            mode: Mode::Gate,
            size: 0,
            bytes: Vec::new(alloc),
            generation,
            number: 0,
            count: 0,
            last: 0,
            world,
        })
    }

    // Takes one byte.
    #[tactic(auto, unfolding(crate::specs::File::byte_step, crate::specs::File::gate_at, crate::specs::File::after_number))]
    pub fn take(&mut self, byte: u8) -> Result<(), LogFault>
        requires { reached self.old < 2 ^ 64 - 1 }
        ensures step { OnOk result (self.new ≡ byte_step self.old byte) }
        ensures reached { OnOk result (reached self.new ≤ reached self.old + 1) }
        ensures err { IfErr result (λ e. e ≡ LogFault.NoMemory) }
    {
        match self.mode {
            Mode::Gate => {
                if byte == 1 {
                    self.mode = Mode::Size;
                    self.size = 8;
                    self.bytes.clear();
                } else {
                    self.mode = Mode::Shut;
                }
            }
            Mode::Size => {
                self.bytes.push(byte)?;
                if self.bytes.len() == 8 {
                    self.sized();
                }
            }
            Mode::Body => {
                self.bytes.push(byte)?;
                if self.bytes.len() as u64 == self.size {
                    self.judge()?;
                }
            }
            Mode::Shut | Mode::Broken => {}
        }
        Ok(())
    }
}

impl Reader {
    fn sized(&mut self)
        requires whole { length self.old.bytes ≡ 8 }
        requires fine { IsFine self.old.held.world }
        ensures { self.new ≡ length_read self.old (from_be_bytes w64 self.old.bytes) }
    {
        let size = word_at(&self.bytes, 0);
        self.bytes.clear();
        if size == 0 {
            self.mode = Mode::Broken;
        } else {
            self.mode = Mode::Body;
            self.size = size;
        }
    }

    #[tactic(auto, unfolding(crate::specs::File::follows, crate::specs::File::after_number))]
    fn follows(&self, head: Head) -> bool
        ensures { result ≡ follows self.now.held head.generation head.number }
    {
        head.generation == self.generation
            && (self.count == 0 || head.number == self.number.wrapping_add(1))
    }

    // Whether the batch can be laid over the world; it is then. Until it is, the file is broken, so that no part of a batch
    // is ever taken for a world.
    #[tactic(auto, unfolding(crate::specs::File::join, crate::specs::Body::body_of))]
    fn lay(&mut self) -> Result<bool, LogFault>
        ensures err { IfErr result (λ e. e ≡ LogFault.NoMemory) }
        ensures joined { IfOk result (λ yes. IsJoined yes self.old self.new) }
        ensures fine { IfOk result (λ yes. yes ≡ true → IsFine self.new.held.world) }
    {
        let Some(head) = head_of(&self.bytes) else {
            return Ok(false);
        };
        if !self.follows(head) {
            return Ok(false);
        }
        let mode = self.mode;
        self.mode = Mode::Broken;
        if !self.world.lay(self.bytes.split_at(21).1)? {
            return Ok(false);
        }
        self.mode = mode;
        self.number = head.number;
        Ok(true)
    }

    #[tactic(auto, unfolding(crate::specs::File::gate_at, crate::specs::File::forgotten))]
    fn judge(&mut self) -> Result<(), LogFault>
        requires { self.old.place + 9 + length self.old.bytes < 2 ^ 64 }
        ensures err { IfErr result (λ e. e ≡ LogFault.NoMemory) }
        ensures judged { OnOk result (self.new ≡ body_judged self.old self.old.bytes (join self.old.place self.old.held self.old.bytes)) }
    {
        let size = self.bytes.len() as u64;
        if self.lay()? {
            self.last = self.place;
            self.count += 1;
            self.place = self.place + 9 + size;
            self.mode = Mode::Gate;
            self.size = 0;
        } else {
            self.forget();
        }
        self.bytes.clear();
        Ok(())
    }

    // Nothing is held any more.
    #[tactic(auto, unfolding(crate::specs::File::forgotten))]
    fn forget(&mut self)
        ensures { self.new ≡ record { place = self.old.place; mode = Broken; size = 0; bytes = self.old.bytes; held = forgotten } }
    {
        self.mode = Mode::Broken;
        self.size = 0;
        self.generation = 0;
        self.number = 0;
        self.count = 0;
        self.last = 0;
        self.world.lose();
    }
}

// What was read to the end of the row of batches.
#[derive(Drop)]
pub struct Parts {
    pub(crate) place: u64,
    pub(crate) generation: u64,
    pub(crate) number: u64,
    pub(crate) count: u64,
    pub(crate) last: u64,
    pub(crate) world: Kept,
    pub(crate) close: bool,
}

impl Reader {
    // Whether no byte that follows counts.
    pub fn is_over(&self) -> bool
        ensures { result ≡ is_over self.now.mode }
    {
        matches!(self.mode, Mode::Shut | Mode::Broken)
    }

    // Takes one byte or more, and says how many: of a body all that doesn't end it, at once.
    fn take_some(&mut self, bytes: &[u8]) -> Result<usize, LogFault>
        requires some { 0 < length bytes.now }
        requires room { reached self.old + length bytes.now < 2 ^ 64 }
        ensures took { IfOk result (λ n. (0 < n) × (n ≤ length bytes.now)) }
        ensures run { IfOk result (λ n. self.new ≡ run self.old (take n bytes.now)) }
        ensures reached { IfOk result (λ n. reached self.new ≤ reached self.old + n) }
        ensures err { IfErr result (λ e. e ≡ LogFault.NoMemory) }
    {
        let had = self.bytes.len() as u64;
        if self.mode == Mode::Body && self.size > had && self.size - had > 1 {
            let left = self.size - had - 1;
            let n = if (bytes.len() as u64) < left {
                bytes.len()
            } else {
                left as usize
            };
            self.bytes.extend_from_slice(bytes.split_at(n).0)?;
            return Ok(n);
        }
        self.take(bytes[0])?;
        Ok(1)
    }

    // Takes these bytes.
    pub fn feed(&mut self, bytes: &[u8]) -> Result<(), LogFault>
        requires { reached self.old + length bytes.now < 2 ^ 64 }
        ensures run { OnOk result (self.new ≡ run self.old bytes.now) }
        ensures reached { OnOk result (reached self.new ≤ reached self.old + length bytes.now) }
        ensures err { IfErr result (λ e. e ≡ LogFault.NoMemory) }
    {
        let mut at = 0;
        while at < bytes.len() {
            at += self.take_some(bytes.split_at(at).1)?;
        }
        Ok(())
    }

    // What the bytes that were read make, or the gate of the first batch that is outside the format.
    #[tactic(auto, unfolding(crate::specs::File::reading_end))]
    pub fn finish(self) -> Result<Parts, u64>
        ensures parts { IsParts self result }
        ensures fine { IfOk result (λ parts. IsFine parts.world) }
    {
        let close = self.mode != Mode::Shut;
        let ends = match self.mode {
            Mode::Gate => self.count == 0,
            Mode::Size => self.bytes.is_empty(),
            Mode::Body => false,
            Mode::Shut => true,
            Mode::Broken => false,
        };
        if ends {
            return Ok(Parts {
                place: self.place,
                generation: self.generation,
                number: self.number,
                count: self.count,
                last: self.last,
                world: self.world,
                close,
            });
        }
        if self.mode == Mode::Gate {
            return Err(self.last);
        }
        Err(self.place)
    }
}
