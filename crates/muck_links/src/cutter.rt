// Bytes as lines.
ghost use Rattle.std.specs.Prelude.{◌≡◌, ◌≢◌, ◌↔◌, ℕ, List, IsTrue, [], ◌∷◌, IfOk, OnOk, OnErr, MatchOption, ◌++◌, option_to_list};
ghost use Rattle.muck_links.specs.Lines.{next_mode, is_shown_byte, line_most, lines};
ghost use Rattle.muck_links.specs.inner.Cutting.{ends, joins, after_byte, cut_lines, cut_rest, fresh, fed};

use muck_model::{Line, NoMemory};
use std::alloc::Global;
use std::collections::VecDeque;
use std::marker::Model;
use std::mem;

/// The most bytes of a line.
const LINE_MOST: usize = 2048;

/// Where the next byte stands.
#[derive(Clone, Copy)]
pub enum Mode {
    /// In no telnet command.
    Plain,
    /// Behind 255.
    Command,
    /// Behind 255 and one of 251 to 254.
    Choice,
    /// Behind 255 250.
    Inside,
    /// Behind 255 250 and a further 255.
    Ending,
}

fn next_mode(mode: Mode, b: u8) -> Mode
    ensures { result ≡ next_mode mode b }
{
    match mode {
        Mode::Plain if b == 255 => Mode::Command,
        Mode::Plain => Mode::Plain,
        Mode::Command if b == 250 => Mode::Inside,
        Mode::Command if b >= 251 && b <= 254 => Mode::Choice,
        Mode::Command => Mode::Plain,
        Mode::Choice => Mode::Plain,
        Mode::Inside if b == 255 => Mode::Ending,
        Mode::Inside => Mode::Inside,
        Mode::Ending if b == 240 => Mode::Plain,
        Mode::Ending if b == 255 => Mode::Ending,
        Mode::Ending => Mode::Inside,
    }
}

fn ends_line(mode: Mode, b: u8) -> bool
    ensures { result ≡ ends mode b }
{
    match mode {
        Mode::Plain => b == 10,
        _ => false,
    }
}

#[tactic(auto, unfolding(crate::specs::Lines::line_most))]
fn joins_line(mode: Mode, b: u8, line: &[u8]) -> bool
    ensures { result ≡ joins mode b line.now }
{
    match mode {
        Mode::Plain => b >= 32 && b <= 126 && line.len() < LINE_MOST,
        _ => false,
    }
}

// The line that isn't whole yet.
#[derive(Drop)]
struct Unfinished {
    mode: Mode,
    line: Vec<u8>,
}

impl Model for Unfinished {
    ghost use Rattle.muck_links.specs.inner.Cutting.{Rest, IsLineSoFar};

    ghost Value = { Rest };

    ghost view = { λ u. record { mode = u.mode; line = u.line.items } };

    ghost invariant = { λ u. IsLineSoFar u.line.items };
}

impl Unfinished {
    fn copy(&self, alloc: Global) -> Result<Unfinished, NoMemory>
        ensures { IfOk result (λ u. u ≡ self.now) }
    {
        let line = self.line.to_vec(alloc)?;
        Ok(Unfinished {
            mode: self.mode,
            line,
        })
    }

    // Takes one byte, and answers the line that it ends.
    #[tactic(auto, using(crate::proofs::Lines::line_more))]
    fn take(&mut self, alloc: Global, b: u8) -> Result<Option<Line>, NoMemory>
        ensures rest { OnOk result (self.new ≡ after_byte self.old b) }
        ensures line { IfOk result (λ line. (bs : List ℕ) → option_to_list line ++ cut_lines self.new bs ≡ cut_lines self.old (b ∷ bs)) }
    {
        let mode = self.mode;
        self.mode = next_mode(mode, b);
        if ends_line(mode, b) {
            let bytes = mem::replace(&mut self.line, Vec::new(alloc));
            return match Line::from_vec(bytes) {
                Ok(line) => Ok(Some(line)),
                Err(_) => unreachable!(),
            };
        }
        if joins_line(mode, b, &self.line) {
            self.line.push(b)?;
        }
        Ok(None)
    }
}

// Cuts bytes behind those of a line that isn't whole.
fn cut(alloc: Global, part: &mut Unfinished, bytes: &[u8]) -> Result<VecDeque<Line>, NoMemory>
    ensures rest { OnOk result (part.new ≡ cut_rest part.old bytes.now) }
    ensures lines { IfOk result (λ lines. lines.items ≡ cut_lines part.old bytes.now) }
{
    let mut lines = VecDeque::new(alloc);
    for b in bytes {
        if let Some(line) = part.take(alloc, *b)? {
            lines.push_back(line)?;
        }
    }
    Ok(lines)
}

/// Cuts bytes into lines, however the bytes come. Byte 10 ends a line. Telnet commands and bytes outside 32 to 126 are dropped, and
/// so is what passes 2,048 bytes of a line. Contracts see the whole lines that were not yet handed out, and the rest.
#[derive(Drop)]
pub struct LineCutter {
    alloc: Global,
    ready: VecDeque<Line>,
    part: Unfinished,
}

impl Model for LineCutter {
    ghost use Rattle.muck_links.specs.inner.Cutting.{Cut};

    ghost Value = { Cut };

    ghost view = { λ c. record { ready = c.ready.items; rest = c.part } };
}

impl LineCutter {
    /// A cutter before the first byte.
    pub fn new(alloc: Global) -> Result<LineCutter, NoMemory>
        ensures { IfOk result (λ c. c ≡ record { ready = []; rest = fresh }) }
    {
        Ok(LineCutter {
            alloc,
            ready: VecDeque::new(alloc),
            part: Unfinished {
                mode: Mode::Plain,
                line: Vec::new(alloc),
            },
        })
    }

    /// Takes further bytes. After `NoMemory` the cutter is unchanged.
    pub fn feed(&mut self, bytes: &[u8]) -> Result<(), NoMemory>
        ensures ok { OnOk result (self.new ≡ fed self.old bytes.now) }
        ensures err { OnErr result (self.new ≡ self.old) }
    {
        let mut part = self.part.copy(self.alloc)?;
        let mut lines = cut(self.alloc, &mut part, bytes)?;
        self.ready.append(&mut lines)?;
        self.part = part;
        Ok(())
    }

    /// Hands out the next whole line; `None` exactly where none is kept. It takes no memory.
    pub fn next_line(&mut self) -> Option<Line>
        ensures { MatchOption result ((self.old.ready ≡ []) × (self.new ≡ self.old)) (λ line.
            (self.old.ready ≡ line ∷ self.new.ready) × (self.new.rest ≡ self.old.rest)) }
    {
        self.ready.pop_front()
    }

    /// Whether a whole line is kept.
    pub fn has_line(&self) -> bool
        ensures { IsTrue result ↔ (self.now.ready ≢ []) }
    {
        !self.ready.is_empty()
    }
}

/// What a new cutter makes of bytes are their lines. It does nothing; contracts take its clause.
pub fn cuts_lines(_bytes: &[u8])
    ensures { cut_lines fresh _bytes.now ≡ lines _bytes.now }
{}
