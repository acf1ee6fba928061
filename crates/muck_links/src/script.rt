// Links in memory, which play a script.
ghost use Rattle.std.specs.Prelude.{◌≡◌, ◌==◌, if◌then◌else◌, ◌≤◌, ◌<◌, ◌^◌, ◌-◌, ℕ, List, true, length, find, take, drop, min, MatchOption, Some, None};
ghost use Rattle.std.specs.Option.{option_copied};
ghost use Rattle.muck_io.specs.Faults.{Rose};
ghost use Rattle.muck_links.specs.Keyed.{latest};
ghost use Rattle.muck_links.specs.Sessions.{LinksTold, Session, session_number, has_number, is_used, on_session, ListenAs, AcceptAs, read_change, write_change, shut};
ghost use Rattle.muck_links.specs.inner.Marks.{marked};
ghost use Rattle.muck_links.specs.inner.Playing.{begun, first_due, stepped, to_read, on_link, fails_listening, coming_by, reading_by, bytes_of as bytes_in, fails_writing, ListenPlays, TakesIn, AcceptPlays, BytesRead, ReadPlays, WritePlays};
ghost use Rattle.muck_links.specs.declared.script.Reading.TheVariants.{Nothing as Waiting};
ghost use Rattle.muck_links.specs.declared.links.Listened.TheVariants.{Fault as ListenFault};
ghost use Rattle.muck_links.specs.declared.links.Accepted.TheVariants.{Got as Came, Fault as AcceptFault};
ghost use Rattle.muck_links.specs.declared.links.LinkRead.TheVariants.{Got as ReadGot};
ghost use Rattle.muck_links.specs.declared.links.LinkWrite.TheVariants.{Put as WritePut};

use crate::links::{Accepted, LinkRead, LinkWrite, Links, Listened};
use crate::session;
use crate::session::{Link, Mark, Way};
use muck_model::ByteList;
use std::alloc::Global;
use std::collections::VecDeque;
use std::marker::Model;

/// What a step of a script says.
#[derive(Drop)]
pub enum LinkWhat {
    /// A link of this number comes, once no open link has it. One from 2^31 on never comes.
    Accept(u32),
    /// These bytes come from the link.
    Bytes(u32, ByteList),
    /// The link sends no more.
    End(u32),
    /// No link comes any more.
    Ended,
    /// A read of the link fails.
    FailRead(u32),
    /// A write to the link fails.
    FailWrite(u32),
    /// Listening fails at once.
    FailListen,
    /// Listening fails where a link is asked for.
    FailAccept,
}

/// A step of a script. It is taken by the call that it answers, once at least `after` bytes were written to all links together.
#[derive(Drop)]
pub struct LinkStep {
    pub after: u64,
    pub what: LinkWhat,
}

/// Links in memory, which play a script: its steps are taken in order, each by the call that it answers. Until then `accept` and
/// `read` answer `NotYet`, and a write takes all bytes. Bytes that a buffer can't hold come with the next reads of that link.
/// Where memory is refused, `listen` and `accept` answer so; a read or a write counts a fault of its link. Contracts see the steps
/// that are left, and what the links carried.
#[derive(Drop)]
pub struct ScriptLinks {
    alloc: Global,
    steps: VecDeque<LinkStep>,
    taken: usize,
    sent: u64,
    listening: u64,
    sessions: Vec<Link>,
    ports: Vec<u16>,
    over: bool,
}

impl Model for ScriptLinks {
    ghost use Rattle.muck_links.specs.inner.Playing.{Script};

    ghost Value = { Script };

    ghost view = { λ s. record {
      steps = s.steps.items;
      taken = s.taken;
      sent = s.sent;
      listening = s.listening;
      told = record { sessions = s.sessions.items; ports = s.ports.items; over = s.over };
    } };
}

// What a step has for who waits for links.
#[derive(Clone, Copy)]
enum Coming {
    Nothing,
    Link(u32),
    Over,
    Failure,
}

// What a step has for who reads a link.
#[derive(Clone, Copy)]
enum Reading {
    Nothing,
    Bytes,
    End,
    Failure,
}

// The first step, once enough was written.
fn due(steps: &VecDeque<LinkStep>, sent: u64) -> Option<&LinkWhat>
    ensures { option_copied result ≡ first_due sent steps.now.items }
{
    let step = steps.front()?;
    if step.after > sent {
        return None;
    }
    Some(&step.what)
}

fn fails_listen(steps: &VecDeque<LinkStep>, sent: u64) -> bool
    ensures { result ≡ fails_listening (first_due sent steps.now.items) }
{
    match due(steps, sent) {
        Some(LinkWhat::FailListen) => true,
        _ => false,
    }
}

fn comes(steps: &VecDeque<LinkStep>, sent: u64) -> Coming
    ensures { result ≡ coming_by (first_due sent steps.now.items) }
{
    match due(steps, sent) {
        Some(LinkWhat::Accept(d)) => Coming::Link(*d),
        Some(LinkWhat::Ended) => Coming::Over,
        Some(LinkWhat::FailAccept) => Coming::Failure,
        _ => Coming::Nothing,
    }
}

// What the step has, where it is one of the link that is read.
fn only_for(d: u32, e: u32, reading: Reading) -> Reading
    ensures { result ≡ (if e == d then reading else Waiting) }
{
    if e == d { reading } else { Reading::Nothing }
}

fn reads(steps: &VecDeque<LinkStep>, sent: u64, d: u32) -> Reading
    ensures { result ≡ reading_by d (first_due sent steps.now.items) }
{
    match due(steps, sent) {
        Some(LinkWhat::Bytes(e, _)) => only_for(d, *e, Reading::Bytes),
        Some(LinkWhat::End(e)) => only_for(d, *e, Reading::End),
        Some(LinkWhat::FailRead(e)) => only_for(d, *e, Reading::Failure),
        _ => Reading::Nothing,
    }
}

fn bytes_of(steps: &VecDeque<LinkStep>, sent: u64) -> &[u8]
    ensures { result.now ≡ bytes_in (first_due sent steps.now.items) }
{
    match due(steps, sent) {
        Some(LinkWhat::Bytes(_, bytes)) => bytes.as_slice(),
        _ => &[],
    }
}

fn fails_write(steps: &VecDeque<LinkStep>, sent: u64, d: u32) -> bool
    ensures { result ≡ fails_writing d (first_due sent steps.now.items) }
{
    match due(steps, sent) {
        Some(LinkWhat::FailWrite(e)) => *e == d,
        _ => false,
    }
}

// The latest session of this number.
fn found(links: &[Link], d: u32) -> Option<&Link>
    ensures { option_copied result ≡ find (has_number d) links.now }
{
    links.iter().find(|s| s.number() == d)
}

fn is_in_use(links: &[Link], d: u32) -> bool
    ensures { result ≡ is_used d links.now }
{
    match found(links, d) {
        Some(s) => s.is_in_use(),
        None => false,
    }
}

// Copies what of these bytes isn't read yet, as much as fits.
fn copy_rest(buf: &mut [u8], taken: usize, bytes: &[u8]) -> usize
    ensures count { result ≡ to_read taken bytes.now (length buf.old) }
    ensures bytes { take result buf.new ≡ take result (drop taken bytes.now) }
    ensures room { (length buf.new ≡ length buf.old) × (result ≤ length buf.new) }
{
    if taken >= bytes.len() {
        return 0;
    }
    let left = bytes.split_at(taken).1;
    let n = left.len().min(buf.len());
    buf[..n].copy_from_slice(&left[..n]);
    n
}

impl ScriptLinks {
    /// Links that are to play these steps.
    pub fn new(alloc: Global, steps: Vec<LinkStep>) -> ScriptLinks
        ensures { result ≡ begun steps.items }
    {
        ScriptLinks {
            alloc,
            steps: VecDeque::from_vec(steps),
            taken: 0,
            sent: 0,
            listening: 0,
            sessions: Vec::new(alloc),
            ports: Vec::new(alloc),
            over: false,
        }
    }

    /// What was written to the latest link of this number.
    pub fn written(&self, d: u32) -> Option<&[u8]>
        ensures { MatchOption result (latest session_number d self.now.told.sessions ≡ None) (λ bytes. (s : Session) × (latest session_number d self.now.told.sessions ≡ Some s) × (bytes.now ≡ s.written)) }
    {
        match found(&self.sessions, d) {
            Some(s) => Some(s.written()),
            None => None,
        }
    }

    // The first step was taken.
    fn next(&mut self)
        ensures { self.new ≡ stepped self.old }
    {
        self.taken = 0;
        let _ = self.steps.pop_front();
    }

    // Marks the latest session of the number.
    fn mark(&mut self, d: u32, mark: Mark)
        ensures { self.new ≡ on_link d (marked mark) self.old }
    {
        session::marks(&mut self.sessions, d, mark);
    }

    // A link comes, if its number is free.
    fn takes_in(&mut self, d: u32) -> Accepted
        ensures { TakesIn d self.old self.new result }
    {
        if d >= 1 << 31 || is_in_use(&self.sessions, d) {
            return Accepted::NotYet;
        }
        match self.sessions.insert(0, Link::new(self.alloc, d)) {
            Err(_) => Accepted::NoMemory,
            Ok(()) => {
                self.next();
                Accepted::Got(d)
            }
        }
    }

    // Bytes come to a link.
    fn gives(&mut self, d: u32, buf: &mut [u8]) -> LinkRead
        ensures plays { BytesRead d (bytes_in (first_due self.old.sent self.old.steps)) (length buf.old) self.old self.new buf.new result }
        ensures told { self.new.told ≡ on_session d (read_change result buf.new) self.old.told }
        ensures bound { (n : ℕ) → result ≡ ReadGot n → n ≤ length buf.new }
        ensures listening { self.new.listening ≡ self.old.listening }
    {
        let bytes = bytes_of(&self.steps, self.sent);
        let n = copy_rest(buf, self.taken, bytes);
        let taken = self.taken + n;
        let is_last = bytes.len() <= taken;
        match session::carries(&mut self.sessions, d, Way::Read, &buf[..n]) {
            Ok(()) => {
                if is_last {
                    self.next();
                } else {
                    self.taken = taken;
                }
                LinkRead::Got(n)
            }
            Err(_) => {
                self.mark(d, Mark::Failed);
                LinkRead::Fault
            }
        }
    }
}

impl Links for ScriptLinks {
    ghost use Rattle.std.specs.Prelude.{true};

    ghost tells = { λ _. true };

    ghost told = { λ s. s.told };

    ghost listening = { λ s. s.listening };

    /// Listens on a port. It fails exactly where the script says so.
    fn listen(&mut self, port: u16) -> Listened
        ensures tells { true ≡ true }
        ensures told { true ≡ true → ListenAs port self.old.told self.new.told result }
        ensures fault { result ≡ ListenFault → Rose self.old.listening self.new.listening }
        ensures later { self.old.listening ≤ self.new.listening }
        ensures plays { ListenPlays port self.old self.new result }
    {
        if self.ports.insert(0, port).is_err() {
            return Listened::NoMemory;
        }
        if fails_listen(&self.steps, self.sent) {
            self.listening = self.listening.saturating_add(1);
            self.next();
            return Listened::Fault;
        }
        Listened::Ready
    }

    /// The next link, where the script says that one comes.
    fn accept(&mut self) -> Accepted
        ensures tells { true ≡ true }
        ensures told { true ≡ true → AcceptAs self.old.told self.new.told result }
        ensures number { (d : ℕ) → result ≡ Came d → d < 2 ^ 31 }
        ensures fault { result ≡ AcceptFault → Rose self.old.listening self.new.listening }
        ensures later { self.old.listening ≤ self.new.listening }
        ensures plays { AcceptPlays self.old self.new result }
    {
        if self.over {
            return Accepted::Ended;
        }
        match comes(&self.steps, self.sent) {
            Coming::Nothing => Accepted::NotYet,
            Coming::Over => {
                self.over = true;
                self.next();
                Accepted::Ended
            }
            Coming::Failure => {
                self.listening = self.listening.saturating_add(1);
                self.next();
                Accepted::Fault
            }
            Coming::Link(d) => self.takes_in(d),
        }
    }

    /// Reads what the script says that comes from the link next.
    fn read(&mut self, d: u32, buf: &mut [u8]) -> LinkRead
        ensures tells { true ≡ true }
        ensures told { true ≡ true → self.new.told ≡ on_session d (read_change result buf.new) self.old.told }
        ensures bound { (n : ℕ) → result ≡ ReadGot n → n ≤ length buf.new }
        ensures listening { self.new.listening ≡ self.old.listening }
        ensures plays { ReadPlays d (length buf.old) self.old self.new buf.new result }
    {
        match reads(&self.steps, self.sent, d) {
            Reading::Nothing => LinkRead::NotYet,
            Reading::Bytes => self.gives(d, buf),
            Reading::End => {
                self.mark(d, Mark::Ended);
                self.next();
                LinkRead::End
            }
            Reading::Failure => {
                self.mark(d, Mark::Failed);
                self.next();
                LinkRead::Fault
            }
        }
    }

    /// Writes all bytes, unless the script says that it fails.
    fn write(&mut self, d: u32, bytes: &[u8]) -> LinkWrite
        ensures tells { true ≡ true }
        ensures told { true ≡ true → self.new.told ≡ on_session d (write_change result bytes.now) self.old.told }
        ensures bound { (n : ℕ) → result ≡ WritePut n → n ≤ length bytes.now }
        ensures listening { self.new.listening ≡ self.old.listening }
        ensures plays { WritePlays d bytes.now self.old self.new result }
    {
        if fails_write(&self.steps, self.sent, d) {
            self.mark(d, Mark::Failed);
            self.next();
            return LinkWrite::Fault;
        }
        match session::carries(&mut self.sessions, d, Way::Written, bytes) {
            Ok(()) => {
                self.sent = self.sent.saturating_add(bytes.len() as u64);
                LinkWrite::Put(bytes.len())
            }
            Err(_) => {
                self.mark(d, Mark::Failed);
                LinkWrite::Fault
            }
        }
    }

    /// Closes the link. No step is taken by it.
    fn close(&mut self, d: u32)
        ensures tells { true ≡ true }
        ensures told { true ≡ true → self.new.told ≡ on_session d shut self.old.told }
        ensures listening { self.new.listening ≡ self.old.listening }
        ensures plays { self.new ≡ on_link d shut self.old }
    {
        self.mark(d, Mark::Closed);
    }
}
