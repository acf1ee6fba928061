// Where connections come from.
ghost use Rattle.std.specs.Prelude.{◌≡◌, ◌≤◌};

/// What `listen` answers.
#[derive(Clone, Copy, Debug)]
pub enum Listened {
    /// Links may come.
    Ready,
    /// The port can't be listened on.
    Fault,
    /// Memory was refused.
    NoMemory,
}

/// What `accept` answers.
#[derive(Clone, Copy, Debug)]
pub enum Accepted {
    /// A link came; it has this number until it is closed.
    Got(u32),
    /// None came yet.
    NotYet,
    /// No link comes any more.
    Ended,
    /// Listening failed.
    Fault,
    /// Memory was refused.
    NoMemory,
}

/// What `read` answers.
#[derive(Clone, Copy, Debug)]
pub enum LinkRead {
    /// So many bytes stand in the front of the buffer.
    Got(usize),
    /// None came yet.
    NotYet,
    /// The other side sends no more.
    End,
    /// The link failed.
    Fault,
}

/// What `write` answers.
#[derive(Clone, Copy, Debug)]
pub enum LinkWrite {
    /// So many bytes of the front were taken.
    Put(usize),
    /// The link takes none yet.
    NotYet,
    /// The link failed.
    Fault,
}

/// Where connections come from, and what carries their bytes. No call waits for the other side, or for longer than a moment. What a
/// link carried is told to contracts where `tells` is true; the count of faults in listening is told always.
pub trait Links {
    ghost use Rattle.std.specs.Prelude.{◌≡◌, ◌≤◌, ◌<◌, ◌^◌, ℕ, Bool, true, length};
    ghost use Rattle.muck_io.specs.Faults.{Rose};
    ghost use Rattle.muck_links.specs.Sessions.{LinksTold, on_session, ListenAs, AcceptAs, read_change, write_change, shut};
    ghost use Rattle.muck_links.specs.declared.links.Listened.TheVariants.{Fault as ListenFault};
    ghost use Rattle.muck_links.specs.declared.links.Accepted.TheVariants.{Got as Came, Fault as AcceptFault};
    ghost use Rattle.muck_links.specs.declared.links.LinkRead.TheVariants.{Got as ReadGot};
    ghost use Rattle.muck_links.specs.declared.links.LinkWrite.TheVariants.{Put as WritePut};

    /// Whether it tells what the links carried.
    ghost tells: { Self → Bool };

    /// What the links carried, for each acceptance, where it tells it.
    ghost told: { Self → LinksTold };

    /// How many faults listening had. The count never falls, and stands still at 2^64 - 1.
    ghost listening: { Self → ℕ };

    /// Listens on a port from now on.
    fn listen(&mut self, port: u16) -> Listened
        ensures tells { tells self.new ≡ tells self.old }
        ensures told { tells self.old ≡ true → ListenAs port (told self.old) (told self.new) result }
        ensures fault { result ≡ ListenFault → Rose (listening self.old) (listening self.new) }
        ensures later { listening self.old ≤ listening self.new };

    /// The next link, if one came. `Ended` is lasting. The number is below 2^31, and no open link has it.
    fn accept(&mut self) -> Accepted
        ensures tells { tells self.new ≡ tells self.old }
        ensures told { tells self.old ≡ true → AcceptAs (told self.old) (told self.new) result }
        ensures number { (d : ℕ) → result ≡ Came d → d < 2 ^ 31 }
        ensures fault { result ≡ AcceptFault → Rose (listening self.old) (listening self.new) }
        ensures later { listening self.old ≤ listening self.new };

    /// Reads some bytes of a link into the front of the buffer.
    fn read(&mut self, d: u32, buf: &mut [u8]) -> LinkRead
        ensures tells { tells self.new ≡ tells self.old }
        ensures told { tells self.old ≡ true → told self.new ≡ on_session d (read_change result buf.new) (told self.old) }
        ensures bound { (n : ℕ) → result ≡ ReadGot n → n ≤ length buf.new }
        ensures listening { listening self.new ≡ listening self.old };

    /// Writes a front of these bytes to a link.
    fn write(&mut self, d: u32, bytes: &[u8]) -> LinkWrite
        ensures tells { tells self.new ≡ tells self.old }
        ensures told { tells self.old ≡ true → told self.new ≡ on_session d (write_change result bytes.now) (told self.old) }
        ensures bound { (n : ℕ) → result ≡ WritePut n → n ≤ length bytes.now }
        ensures listening { listening self.new ≡ listening self.old };

    /// Closes a link, which gives its number free.
    fn close(&mut self, d: u32)
        ensures tells { tells self.new ≡ tells self.old }
        ensures told { tells self.old ≡ true → told self.new ≡ on_session d shut (told self.old) }
        ensures listening { listening self.new ≡ listening self.old };
}
