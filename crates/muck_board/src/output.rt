// What waits to be sent to a connection.
ghost use Rattle.std.specs.Prelude.{◌≡◌, ℕ, ◌+◌, ◌-◌, ◌<◌, ◌≤◌, OnOk, MatchBool, [], ◌++◌, length, take, drop, min};
ghost use Rattle.spec_live.specs.Output.{no_output, notice_of, sent_lines_bytes, bytes_of, lines_sent, output_taken};
ghost use Rattle.muck_board.specs.inner.Sent.{sent_most};
ghost use Rattle.muck_board.specs.inner.Bounded.{kept_newest};

use crate::lines::Lines;
use crate::sent::Sent;
use muck_model::NoMemory;
use std::alloc::Global;
use std::marker::Model;

/// The most bytes that wait, without the notice.
const QUEUE_MOST: usize = 131_072;

/// What stands before lines of which older ones were lost.
const NOTICE: &[u8] = b"<Output Flushed>\r\n";

/// What was begun to be taken: the first line, or the notice, of which so many bytes went.
#[derive(Clone, Copy, Drop)]
enum Begun {
    Line,
    Notice(usize),
}

/// The rest of a line or of the notice that was taken in part, whether the notice of lost lines stands, and whole lines.
#[derive(Drop)]
pub struct Output {
    begun: Begun,
    flushed: bool,
    lines: Lines,
}

impl Model for Output {
    ghost use Rattle.spec_live.specs.Output.{Output as Queue};
    ghost use Rattle.muck_board.specs.inner.Bounded.{IsBounded, rest_of};

    ghost Value = { Queue };

    ghost view = { λ o. record { rest = rest_of o.begun o.lines; flushed = o.flushed; lines = o.lines.lines } };

    ghost invariant = { λ o. IsBounded o.begun (record { rest = rest_of o.begun o.lines; flushed = o.flushed; lines = o.lines.lines }) };
}

// How many bytes the notice has, where it stands.
#[tactic(auto, unfolding(spec_live::specs::Output::notice))]
fn notice_len(flushed: bool) -> usize
    ensures { result ≡ length (notice_of flushed) }
{
    if flushed {
        return 18;
    }
    0
}

// Copies bytes behind the first at of a buffer, as many as fit.
fn copy_at(buf: &mut [u8], at: usize, bytes: &[u8]) -> usize
    requires { at ≤ length buf.old }
    ensures count { result ≡ min (length bytes.now) (length buf.old - at) }
    ensures bytes { take (at + result) buf.new ≡ take at buf.old ++ take result bytes.now }
    ensures len { length buf.new ≡ length buf.old }
{
    let n = bytes.len().min(buf.len() - at);
    buf[at..at + n].copy_from_slice(&bytes[..n]);
    n
}

impl Output {
    /// Nothing waits.
    #[tactic(auto, unfolding(spec_live::specs::Output::sent_lines_bytes))]
    pub fn new(alloc: Global) -> Output
        ensures { result ≡ no_output }
    {
        Output {
            begun: Begun::Line,
            flushed: false,
            lines: Lines::new(alloc),
        }
    }

    // What is left of what was begun.
    #[tactic(auto, unfolding(spec_live::specs::Output::notice))]
    fn rest(&self) -> &[u8]
        ensures bytes { result.now ≡ self.now.rest }
        ensures most { length result.now ≤ sent_most }
    {
        match self.begun {
            Begun::Line => self.lines.begun(),
            Begun::Notice(from) => NOTICE.split_at(from).1,
        }
    }

    /// How many bytes wait, the notice among them.
    pub fn len(&self) -> usize
        ensures count { result ≡ length (bytes_of self.now) }
        ensures most { result ≤ 131090 }
    {
        self.rest().len() + notice_len(self.flushed) + self.lines.len()
    }

    // With the notice, and without the oldest lines, where more than so many bytes of lines wait.
    fn make_room(&mut self, room: usize)
        requires { length self.old.rest + room ≤ 131072 }
        ensures room { self.new ≡ kept_newest room self.old }
        ensures most { length (sent_lines_bytes self.new.lines) ≤ room }
    {
        if self.lines.len() > room {
            self.lines.keep_newest(room);
            self.flushed = true;
        }
    }

    // Puts lines at the end, for which there is room.
    fn push_back(&mut self, sent: &Sent) -> Result<(), NoMemory>
        requires { length self.old.rest + length (sent_lines_bytes sent.now) + length (sent_lines_bytes self.old.lines) ≤ 131072 }
        ensures { OnOk result (self.new ≡ record self.old { lines = self.old.lines ++ sent.now }) }
    {
        self.lines.push(sent)?;
        Ok(())
    }

    /// Sends the lines of a text. Lines that were sent before give way: all that have to go at once.
    pub fn send(&mut self, sent: &Sent) -> Result<(), NoMemory>
        ensures { OnOk result (self.new ≡ lines_sent sent.now self.old) }
    {
        let room = QUEUE_MOST - (self.rest().len() + sent.as_slice().len());
        self.make_room(room);
        self.push_back(sent)?;
        Ok(())
    }

    // Where nothing was begun, begins with the notice or the first line. It answers whether anything is there.
    fn begin(&mut self) -> bool
        ensures same { bytes_of self.new ≡ bytes_of self.old }
        ensures taken { (k : ℕ) → 0 < k → output_taken k self.new ≡ output_taken k self.old }
        ensures begun { MatchBool result (0 < length self.new.rest) ((bytes_of self.old ≡ []) × (self.new ≡ self.old)) }
    {
        if !self.rest().is_empty() {
            return true;
        }
        if self.flushed {
            self.begun = Begun::Notice(0);
            self.flushed = false;
            return true;
        }
        if !self.lines.begin() {
            return false;
        }
        self.begun = Begun::Line;
        true
    }

    // Lets the first bytes go of what was begun.
    fn advance(&mut self, n: usize)
        requires { n ≤ length self.old.rest }
        ensures { self.new ≡ record self.old { rest = drop n self.old.rest } }
    {
        match self.begun {
            Begun::Line => self.lines.advance(n),
            Begun::Notice(from) => self.begun = Begun::Notice(from + n),
        }
    }

    // Takes bytes of what was begun, as many as are there and fit behind the first at.
    fn take_begun(&mut self, buf: &mut [u8], at: usize) -> usize
        requires { at ≤ length buf.old }
        ensures count { result ≡ min (length self.old.rest) (length buf.old - at) }
        ensures bytes { take (at + result) buf.new ≡ take at buf.old ++ take result self.old.rest }
        ensures len { length buf.new ≡ length buf.old }
        ensures rest { self.new ≡ record self.old { rest = drop result self.old.rest } }
    {
        let n = copy_at(buf, at, self.rest());
        self.advance(n);
        n
    }

    /// Takes the first bytes that wait, as many as are there and fit.
    pub fn take(&mut self, buf: &mut [u8]) -> usize
        ensures count { result ≡ min (length (bytes_of self.old)) (length buf.old) }
        ensures bytes { take result buf.new ≡ take result (bytes_of self.old) }
        ensures rest { self.new ≡ output_taken result self.old }
        ensures left { bytes_of self.new ≡ drop result (bytes_of self.old) }
    {
        let mut n = 0;
        while n < buf.len() {
            if !self.begin() {
                return n;
            }
            n += self.take_begun(buf, n);
        }
        n
    }
}
