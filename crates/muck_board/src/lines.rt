// Lines that wait to be sent.
ghost use Rattle.std.specs.Prelude.{◌≡◌, ◌≤◌, ◌<◌, ◌++◌, [], OnOk, OnErr, MatchBool, length, drop};
ghost use Rattle.spec_live.specs.Output.{sent_lines_bytes, newest};
ghost use Rattle.muck_board.specs.inner.Waiting.{Begins, end_behind};

use crate::sent::Sent;
use muck_model::{NoMemory, count_before};
use std::alloc::Global;
use std::marker::Model;

/// The most bytes that went and are kept before what waits.
const WASTE_MOST: usize = 131_072;

/// The most bytes of memory that are kept where nothing waits.
const IDLE_MOST: usize = 1_024;

/// What is left of a line that was begun to be taken, and whole lines behind it. All stand in one piece of memory, each with its
/// end, and what went stays there until it is as much as may wait: so lines come and go without memory of their own. Then what is
/// left moves to the front. A large piece of memory is let go once nothing waits.
#[derive(Drop)]
pub struct Lines {
    alloc: Global,
    bytes: Vec<u8>,
    /// Where the rest of the line stands that was begun, and how many bytes it has.
    at: usize,
    begun: usize,
    /// Where whole lines begin.
    from: usize,
}

impl Model for Lines {
    ghost use Rattle.std.specs.Prelude.{◌≤◌, ◌+◌, length, take, drop};
    ghost use Rattle.muck_board.specs.inner.Sent.{lines_in, IsLines};
    ghost use Rattle.muck_board.specs.inner.Waiting.{Waiting};

    ghost Value = { Waiting };

    ghost view = { λ l. record { begun = take l.begun (drop l.at l.bytes.items); lines = lines_in (drop l.from l.bytes.items) } };

    ghost invariant = { λ l. (l.at + l.begun ≤ l.from) × (l.from ≤ length l.bytes.items) × IsLines (drop l.from l.bytes.items) };
}

// Where the first line ends that ends behind so many bytes, or with the last of them.
fn end_behind(lines: &[u8], over: usize) -> usize
    requires { over ≤ length lines.now }
    ensures { result ≡ end_behind over lines.now }
{
    let passed = if over < 2 { 0 } else { over - 2 };
    passed + count_before(lines.split_at(passed).1, b'\r') + 2
}

// Lets the first bytes go, and moves the others to the front: at once, where they are no more than those.
fn drop_front(bytes: &mut Vec<u8>, n: usize)
    requires { n ≤ length bytes.old.items }
    ensures { bytes.new.items ≡ drop n bytes.old.items }
{
    let left = bytes.len() - n;
    if left > n {
        bytes.copy_within(n.., 0);
    } else {
        let (front, rest) = bytes.split_at_mut(n);
        front.split_at_mut(left).0.copy_from_slice(rest);
    }
    bytes.truncate(left);
}

impl Lines {
    /// No lines.
    pub fn new(alloc: Global) -> Lines
        ensures { result ≡ record { begun = []; lines = [] } }
    {
        Lines {
            alloc,
            bytes: Vec::new(alloc),
            at: 0,
            begun: 0,
            from: 0,
        }
    }

    /// The bytes that are left of the line that was begun.
    pub fn begun(&self) -> &[u8]
        ensures { result.now ≡ self.now.begun }
    {
        self.bytes.split_at(self.at).1.split_at(self.begun).0
    }

    // The bytes of whole lines.
    fn whole(&self) -> &[u8]
        ensures { result.now ≡ sent_lines_bytes self.now.lines }
    {
        self.bytes.split_at(self.from).1
    }

    /// How many bytes whole lines have.
    pub fn len(&self) -> usize
        ensures { result ≡ length (sent_lines_bytes self.now.lines) }
    {
        self.whole().len()
    }

    /// Begins with the first whole line; what is left of another one goes. It is false where there is none.
    pub fn begin(&mut self) -> bool
        ensures { MatchBool result (Begins self.old self.new) ((self.old.lines ≡ []) × (self.new ≡ self.old)) }
    {
        let whole = self.whole();
        if whole.is_empty() {
            return false;
        }
        let len = count_before(whole, b'\r') + 2;
        self.at = self.from;
        self.begun = len;
        self.from += len;
        true
    }

    // Where nothing is left, lets a large piece of memory go.
    fn let_go(&mut self)
        ensures { self.new ≡ self.old }
    {
        if self.begun > 0 || self.from < self.bytes.len() {
            return;
        }
        if self.bytes.capacity() > IDLE_MOST {
            self.bytes = Vec::new(self.alloc);
        } else {
            self.bytes.clear();
        }
        self.at = 0;
        self.from = 0;
    }

    /// Lets the first bytes go of the line that was begun.
    pub fn advance(&mut self, n: usize)
        requires { n ≤ length self.old.begun }
        ensures { self.new ≡ record self.old { begun = drop n self.old.begun } }
    {
        self.at += n;
        self.begun -= n;
        self.let_go();
    }

    /// Lets the oldest whole lines go until no more than so many bytes are left.
    pub fn keep_newest(&mut self, room: usize)
        requires { room < length (sent_lines_bytes self.old.lines) }
        ensures { self.new ≡ record self.old { lines = newest room self.old.lines } }
    {
        let whole = self.whole();
        self.from += end_behind(whole, whole.len() - room);
    }

    // Moves what is left to the front, where much went, or no whole line waits.
    fn compact(&mut self)
        ensures { self.new ≡ self.old }
    {
        if self.from < WASTE_MOST && self.from < self.bytes.len() {
            return;
        }
        let front = self.from - self.begun;
        self.bytes.copy_within(self.at..self.at + self.begun, front);
        drop_front(&mut self.bytes, front);
        self.at = 0;
        self.from = self.begun;
    }

    /// Puts the lines of a text behind the others.
    pub fn push(&mut self, sent: &Sent) -> Result<(), NoMemory>
        ensures ok { OnOk result (self.new ≡ record self.old { lines = self.old.lines ++ sent.now }) }
        ensures err { OnErr result (self.new ≡ self.old) }
    {
        self.compact();
        self.bytes.extend_from_slice(sent.as_slice())?;
        Ok(())
    }
}
