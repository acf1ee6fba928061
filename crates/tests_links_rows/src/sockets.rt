// Links over real sockets, to this machine itself.
use muck_links::{Accepted, Bell, LinkRead, Links, MioLinks};
use muck_model::NoMemory;
use std::alloc::Global;
use std::io;
use std::io::{Read, Write};
use std::net::{Ipv4Addr, Net, SocketAddr, TcpStream};
use tests_rows::add;

// How many rounds a row waits for the other side: some seconds, where each round waits a millisecond.
const ROUNDS: u32 = 20_000;

// The link that comes.
fn coming<L: Links>(links: &mut L) -> Option<u32> {
    for _ in 0..ROUNDS {
        match links.accept() {
            Accepted::Got(d) => return Some(d),
            Accepted::NotYet => {}
            _ => return None,
        }
    }
    None
}

// Adds what comes from the link.
fn add_read<L: Links>(links: &mut L, out: &mut String, d: u32) -> Result<(), NoMemory> {
    let mut buf = [0u8; 64];
    for _ in 0..ROUNDS {
        let _ = links.accept();
        match links.read(d, &mut buf) {
            LinkRead::Got(n) => return add(out, &buf[..n.min(64)]),
            LinkRead::NotYet => {}
            answer => return Ok(write!(out, "{answer:?}")?),
        }
    }
    Ok(out.push_str("nothing came")?)
}

// A client that connects, or a fault.
fn client<R: Net>(rt: &R, port: u16) -> io::Result<R::Stream> {
    let mut stream = TcpStream::connect(rt, SocketAddr::from((Ipv4Addr::LOCALHOST, port)))?;
    stream.write_all(b"hi\r\n")?;
    Ok(stream)
}

// What a link of these links carries both ways.
fn add_talk<L: Links, S: Read + Write + Drop>(
    links: &mut L,
    out: &mut String,
    client: S,
) -> Result<(), NoMemory> {
    let mut client = client;
    let Some(d) = coming(links) else {
        return Ok(out.push_str("no link")?);
    };
    add_read(links, out, d)?;
    write!(out, "; {:?}; ", links.write(d, b"ho\r\n"))?;
    let mut buf = [0u8; 4];
    match client.read_exact(&mut buf) {
        Ok(()) => add(out, &buf)?,
        Err(_) => out.push_str("lost")?,
    }
    drop(client);
    out.push_str("; ")?;
    add_read(links, out, d)?;
    links.close(d);
    let gone = links.write(d, b"ho\r\n");
    write!(out, "; {gone:?}")?;
    Ok(())
}

/// A client says `hi`, is answered `ho`, and leaves.
pub fn talk<R: Net + Copy>(rt: &R, alloc: Global, out: &mut String) -> Result<(), NoMemory> {
    let bell = Bell::new();
    let mut links = MioLinks::new(alloc, *rt, &bell);
    write!(out, "{:?}; ", links.listen(0))?;
    let Some(port) = links.port() else {
        return Ok(out.push_str("no port")?);
    };
    match client(rt, port) {
        Ok(client) => add_talk(&mut links, out, client),
        Err(_) => Ok(out.push_str("no client")?),
    }
}

/// A port that another one listens on.
pub fn port_in_use<R: Net + Copy>(rt: &R, alloc: Global, out: &mut String) -> Result<(), NoMemory> {
    let bell = Bell::new();
    let mut first = MioLinks::new(alloc, *rt, &bell);
    let mut second = MioLinks::new(alloc, *rt, &bell);
    write!(out, "{:?}; ", first.listen(0))?;
    let Some(port) = first.port() else {
        return Ok(out.push_str("no port")?);
    };
    write!(out, "{:?}; {:?}", second.listen(port), second.accept())?;
    Ok(())
}
