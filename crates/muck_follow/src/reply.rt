// The reply to a line of a script.
ghost use Rattle.std.specs.Prelude.{◌≡◌, ◌≤◌, ◌++◌, ◌∷◌, [], true, IfOk, OnOk, OnErr, IsErrOf, decimal, option_map};
ghost use Rattle.muck_io.specs.Faults.{Rose};
ghost use Rattle.muck_log.specs.Store.{LeavesOnly};
ghost use Rattle.muck_bodies.specs.Bodies.{bodies_of, body_numbered};
ghost use Rattle.muck_mirror.specs.Looks.{looked_at, examined_at};
ghost use Rattle.muck_follow.specs.Following.{line, fed_text, body_reply, body_left, lines_text, seen_text, reply_of, mirror_after_act};

use crate::{Act, FollowFault};
use itoa::Buffer;
use muck_bodies::body;
use muck_disk::Disk;
use muck_mirror::{Fed, Mirror, MirrorFault};
use muck_model::{Dbref, Line, NoMemory};
use std::alloc::Global;

// A line of these bytes.
fn line(alloc: Global, text: &[u8]) -> Result<Vec<u8>, NoMemory>
    ensures { IfOk result (λ bytes. bytes.items ≡ line text.now) }
{
    let mut bytes = Vec::from_slice(alloc, text)?;
    bytes.push(b'\n')?;
    Ok(bytes)
}

// A line of these bytes and a number behind them.
fn numbered(alloc: Global, text: &[u8], n: u64) -> Result<Vec<u8>, NoMemory>
    ensures { IfOk result (λ bytes. bytes.items ≡ line (text.now ++ decimal n)) }
{
    let mut buffer = Buffer::new();
    let mut bytes = Vec::from_slice(alloc, text)?;
    bytes.extend_from_slice(buffer.format(n).as_bytes())?;
    bytes.push(b'\n')?;
    Ok(bytes)
}

fn fed_text(alloc: Global, fed: Fed) -> Result<Vec<u8>, NoMemory>
    ensures { IfOk result (λ bytes. bytes.items ≡ fed_text fed) }
{
    match fed {
        Fed::Applied { upto } => numbered(alloc, b"applied ", upto),
        Fed::Known => line(alloc, b"known"),
        Fed::Early => line(alloc, b"early"),
        Fed::Full => line(alloc, b"full"),
        Fed::Strange { at } => numbered(alloc, b"strange ", at),
    }
}

// Feeds the mirror a body, where there is one, and answers the reply. Where memory is wanted the mirror is as it was, or as it is then.
fn feed_one(alloc: Global, bytes: Option<Vec<u8>>, mirror: &mut Mirror) -> Result<Vec<u8>, NoMemory>
    ensures text { IfOk result (λ text. text.items ≡ body_reply (option_map (λ v. v.items) bytes) mirror.old) }
    ensures left { OnOk result (mirror.new ≡ body_left (option_map (λ v. v.items) bytes) mirror.old) }
{
    match bytes {
        None => line(alloc, b"no batch"),
        Some(bytes) => {
            let fed = mirror.feed(&bytes)?;
            fed_text(alloc, fed)
        }
    }
}

fn add_line(text: &mut Vec<u8>, shown: &Line) -> Result<(), NoMemory>
    ensures { OnOk result (text.new.items ≡ text.old.items ++ line shown.now) }
{
    text.extend_from_slice(shown.as_slice())?;
    text.push(b'\n')?;
    Ok(())
}

fn add_lines(text: &mut Vec<u8>, lines: &[Line]) -> Result<(), NoMemory>
    ensures { OnOk result (text.new.items ≡ text.old.items ++ lines_text lines.now) }
{
    for shown in lines {
        add_line(text, shown)?;
    }
    Ok(())
}

// These lines, one after another.
fn lines_text(alloc: Global, lines: &[Line]) -> Result<Vec<u8>, NoMemory>
    ensures { IfOk result (λ text. text.items ≡ lines_text lines.now) }
{
    let mut text = Vec::new(alloc);
    add_lines(&mut text, lines)?;
    Ok(text)
}

// What is seen of an object by who looks at it.
fn look_text(alloc: Global, mirror: &Mirror, d: Dbref) -> Result<Vec<u8>, NoMemory>
    ensures { IfOk result (λ text. text.items ≡ seen_text (looked_at mirror.now d)) }
{
    match mirror.look(d) {
        Ok(lines) => lines_text(alloc, lines.as_slice()),
        Err(MirrorFault::NoSuchObject) => line(alloc, b"no object"),
        Err(MirrorFault::NoMemory) => Err(NoMemory),
    }
}

// What is seen of an object by who examines it.
fn examine_text(alloc: Global, mirror: &Mirror, d: Dbref) -> Result<Vec<u8>, NoMemory>
    ensures { IfOk result (λ text. text.items ≡ seen_text (examined_at mirror.now d)) }
{
    match mirror.examine(d) {
        Ok(lines) => lines_text(alloc, lines.as_slice()),
        Err(MirrorFault::NoSuchObject) => line(alloc, b"no object"),
        Err(MirrorFault::NoMemory) => Err(NoMemory),
    }
}

/// Does what a line asks for, and answers the reply to it.
pub fn reply<D: Disk>(
    alloc: Global,
    act: Act,
    disk: &mut D,
    mirror: &mut Mirror,
) -> Result<Vec<u8>, FollowFault>
    ensures text { D.tells ≡ true → IfOk result (λ text. text.items ≡ reply_of act (bodies_of (D.seen disk.old)) mirror.old) }
    ensures left { D.tells ≡ true → OnOk result (mirror.new ≡ mirror_after_act act (bodies_of (D.seen disk.old)) mirror.old) }
    ensures written { IsErrOf result FollowFault.WriteFault → ⊥ }
    ensures attached { D.attached disk.new ≡ D.attached disk.old }
    ensures seen { D.tells ≡ true → D.seen disk.new ≡ D.seen disk.old }
    ensures any { D.tells ≡ true → LeavesOnly D.moment D.images disk.old disk.new (D.images disk.old (D.moment disk.old)) }
    ensures later { D.faults disk.old ≤ D.faults disk.new }
    ensures cause { IsErrOf result FollowFault.DiskFault → Rose (D.faults disk.old) (D.faults disk.new) }
{
    match act {
        Act::Nothing => Ok(Vec::new(alloc)),
        Act::Feed(number) => {
            let bytes = body(alloc, disk, number)?;
            let text = feed_one(alloc, bytes, mirror)?;
            Ok(text)
        }
        Act::Look(d) => Ok(look_text(alloc, mirror, d)?),
        Act::Examine(d) => Ok(examine_text(alloc, mirror, d)?),
    }
}
