// Links over the system's sockets.
ghost use Rattle.std.specs.Prelude.{◌≡◌, ◌≢◌, ◌<◌, ◌^◌, ℕ, false};
ghost use Rattle.muck_links.specs.declared.links.Accepted.TheVariants.{Got as Came, Fault as AcceptFault};

use crate::bell::Bell;
use crate::links::{Accepted, LinkRead, LinkWrite, Links, Listened};
use mio::net::{TcpListener, TcpStream};
use mio::{Events, Interest, Poll, Token};
use slab::Slab;
use std::alloc::Global;
use std::io;
use std::io::{ErrorKind, Read, Write};
use std::net::{Ipv4Addr, Net, Shutdown, SocketAddr};

// The name of the listener among what may be ready; the links have their numbers.
const DOOR: usize = usize::MAX;

// That of the bell.
const BELL: usize = usize::MAX - 1;

// How many events one look at the sockets tells.
const EVENTS_MOST: usize = 1024;

// The most links that are open at once; further ones wait at the door.
const LINKS_MOST: usize = 256;

// What a closed link still sent is read away at most so often: else the system would drop what was written to it last.
const READS_AWAY: usize = 16;

// Where links come in.
#[derive(Drop)]
struct Door {
    listener: TcpListener,
    poll: Poll,
    events: Events,
    // Whether links may wait there.
    pending: bool,
    // Whether the last look found something, which is seen to before the next one.
    found: bool,
}

// An open link.
#[derive(Drop)]
struct Socket {
    stream: TcpStream,
    // Whether a read may find something.
    readable: bool,
    // Whether its end, or that it failed, stands behind what a read finds.
    ends: bool,
}

/// Links over the system's sockets, by TCP, at all IPv4 addresses of the machine. They tell nothing of what they carry. What is
/// written goes out at once, in one call of the system. `accept` waits for as long as the bell lets it, until a link is ready or the bell rings.
#[derive(Drop)]
pub struct MioLinks<'b, N: Net> {
    net: N,
    alloc: Global,
    door: Option<Door>,
    sockets: Slab<Socket>,
    listening: u64,
    bell: &'b Bell,
}

// Opens a door at the port, on all addresses.
fn open<N: Net>(net: &N, port: u16, events: Events) -> io::Result<Door> {
    let address = SocketAddr::from((Ipv4Addr::UNSPECIFIED, port));
    let mut listener = TcpListener::bind(net, address)?;
    let poll = Poll::new(net)?;
    poll.registry()
        .register(&mut listener, Token(DOOR), Interest::READABLE)?;
    Ok(Door {
        listener,
        poll,
        events,
        pending: true,
        found: false,
    })
}

// Whether it is the listener that failed, and not the link that came, or the system for a while.
fn is_door_broken(error: &io::Error) -> bool {
    match error.raw_os_error() {
        // EBADF, EINVAL, ENOTSOCK
        Some(code) => code == 9 || code == 22 || code == 88,
        None => false,
    }
}

// Whether the call may be tried again.
fn is_passing(error: &io::Error) -> bool {
    match error.kind() {
        ErrorKind::WouldBlock | ErrorKind::Interrupted => true,
        _ => false,
    }
}

impl<'b, N: Net> MioLinks<'b, N> {
    /// No link so far. Whoever rings this bell ends a wait.
    pub fn new(alloc: Global, net: N, bell: &'b Bell) -> Self {
        MioLinks {
            net,
            alloc,
            door: None,
            sockets: Slab::new(alloc),
            listening: 0,
            bell,
        }
    }

    /// The port that is listened on.
    pub fn port(&self) -> Option<u16> {
        let door = self.door.as_ref()?;
        match door.listener.local_addr() {
            Ok(address) => Some(address.port()),
            Err(_) => None,
        }
    }

    // Looks which sockets are ready, and waits for as long as the bell lets it where none is. Behind a look that found something it may leave one out.
    fn look(&mut self)
        ensures { self.new.listening ≡ self.old.listening }
    {
        let MioLinks {
            door,
            sockets,
            bell,
            ..
        } = self;
        let Some(door) = door else { return };
        let time = bell.takes_nap(door.pending && sockets.len() < LINKS_MOST);
        let found = door.found;
        door.found = false;
        if found && time.is_zero() {
            return;
        }
        if door.poll.poll(&mut door.events, Some(time)).is_err() {
            return;
        }
        for event in door.events.iter() {
            bell.came();
            door.found = true;
            let token = usize::from(event.token());
            if token == DOOR {
                door.pending = true;
            } else if let Some(socket) = sockets.get_mut(token) {
                socket.readable = true;
                socket.ends = socket.ends || event.is_read_closed() || event.is_error();
            }
        }
    }

    // Keeps a link that came. One that the system can't watch is let go.
    fn keep(&mut self, stream: TcpStream) -> Accepted
        ensures number { (d : ℕ) → result ≡ Came d → d < 2 ^ 31 }
        ensures fine { result ≢ AcceptFault }
        ensures kept { self.new.listening ≡ self.old.listening }
    {
        let mut stream = stream;
        let Some(door) = &self.door else {
            return Accepted::NotYet;
        };
        if self.sockets.reserve(1).is_err() {
            return Accepted::NoMemory;
        }
        let d = self.sockets.vacant_key();
        let registry = door.poll.registry();
        let _ = stream.set_nodelay(true);
        if d >= 1 << 31
            || registry
                .register(
                    &mut stream,
                    Token(d),
                    Interest::READABLE | Interest::WRITABLE,
                )
                .is_err()
        {
            return Accepted::NotYet;
        }
        self.sockets.insert_reserved(Socket {
            stream,
            readable: true,
            ends: false,
        });
        Accepted::Got(d as u32)
    }
}

impl<'b, N: Net> Links for MioLinks<'b, N> {
    ghost use Rattle.std.specs.Prelude.{false, []};

    ghost tells = { λ _. false };

    ghost told = { λ _. record { sessions = []; ports = []; over = false } };

    ghost listening = { λ s. s.listening };

    fn listen(&mut self, port: u16) -> Listened {
        let Ok(events) = Events::with_capacity(self.alloc, EVENTS_MOST) else {
            return Listened::NoMemory;
        };
        match open(&self.net, port, events) {
            Ok(door) => {
                self.bell.joins(door.poll.registry(), Token(BELL));
                self.door = Some(door);
                Listened::Ready
            }
            Err(_) => {
                self.listening = self.listening.saturating_add(1);
                Listened::Fault
            }
        }
    }

    fn accept(&mut self) -> Accepted {
        self.look();
        let Some(door) = &mut self.door else {
            return Accepted::NotYet;
        };
        if !door.pending || self.sockets.len() >= LINKS_MOST {
            return Accepted::NotYet;
        }
        match door.listener.accept() {
            Ok((stream, _)) => self.keep(stream),
            Err(e) if is_door_broken(&e) => {
                self.listening = self.listening.saturating_add(1);
                Accepted::Fault
            }
            Err(e) => {
                door.pending = e.kind() != ErrorKind::WouldBlock;
                Accepted::NotYet
            }
        }
    }

    fn read(&mut self, d: u32, buf: &mut [u8]) -> LinkRead {
        let Some(socket) = self.sockets.get_mut(d as usize) else {
            return LinkRead::NotYet;
        };
        if !socket.readable {
            return LinkRead::NotYet;
        }
        match socket.stream.read(buf) {
            Ok(n) if n == 0 && !buf.is_empty() => LinkRead::End,
            Ok(n) => {
                // Where less came than there was room for nothing is left, and what comes later is told.
                socket.readable = socket.ends || n == buf.len();
                LinkRead::Got(n)
            }
            Err(e) if is_passing(&e) => {
                socket.readable = e.kind() != ErrorKind::WouldBlock;
                LinkRead::NotYet
            }
            Err(_) => LinkRead::Fault,
        }
    }

    fn write(&mut self, d: u32, bytes: &[u8]) -> LinkWrite {
        let Some(socket) = self.sockets.get_mut(d as usize) else {
            return LinkWrite::Fault;
        };
        match socket.stream.write(bytes) {
            Ok(n) => LinkWrite::Put(n),
            Err(e) if is_passing(&e) => LinkWrite::NotYet,
            Err(_) => LinkWrite::Fault,
        }
    }

    fn close(&mut self, d: u32) {
        let Some(socket) = self.sockets.try_remove(d as usize) else {
            return;
        };
        let mut socket = socket;
        let _ = socket.stream.shutdown(Shutdown::Write);
        let mut away = [0u8; 1024];
        for _ in 0..READS_AWAY {
            match socket.stream.read(&mut away) {
                Ok(n) if n > 0 => {}
                _ => return,
            }
        }
    }
}
