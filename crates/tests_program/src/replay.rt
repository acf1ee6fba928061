// A world with four players, and texts that are replayed on it: what is done stands with what comes of it, on lines or between
// slashes. A row `2> look` is typed on a connection, which comes first where it isn't there, and is welcomed; then all turns are
// taken, and a connection that is leaving goes. A row `3: exec` is a call behind its answer. Then comes what each is sent.
use crate::close;
use muck_machine::{Sliced, World};
use muck_model::{Line, NoMemory};
use muck_script::{farewell_text, lines_text, settle};
use spec_commands::{cut_word, trim};
use std::alloc::Global;
use std::test::Fail;

// Room Zero with One, and with #2, Ann, who may build, #3, Bob, who may not, and #4, Two, who may write programs; each has its
// name as its password. A player may have two processes, and one of level 2 may take 100 units.
const TOWN: &str = r#"1> connect One potrzebie / 1< Room Zero(#0R)
1> @pcreate Ann=Ann / 1< Created Ann(#2P). / 1> @pcreate Bob=Bob / 1< Created Bob(#3P). / 1> @pcreate Two=Two / 1< Created Two(#4P).
1> @set *Ann=B / 1< Flag set. / 1> @set *Two=M2 / 1< Flag set. / 1> @tune instr_slice=100 / 1< Parameter set.
1> @tune preempt_units=100 / 1< Parameter set. / 1> @tune m1_units=100 / 1< Parameter set. / 1> @tune m2_units=100 / 1< Parameter set.
1> @tune process_limit=3 / 1< Parameter set. / 1> @tune player_processes=2 / 1< Parameter set.
1> @tune mpi_commands=1 / 1< Parameter set. / 1> @tune dump_interval=1 / 1< Parameter set. / 1> QUIT / 1< Come back later! / 1 closed"#;

// The process that is to go on runs for a slice, as another party than the porter has it; answers its number, or 0.
fn run(world: &mut World) -> Result<u32, NoMemory> {
    let Some(pid) = world.claim(3) else {
        return Ok(0);
    };
    world.slice(3, pid)?;
    Ok(pid.unsigned_abs())
}

// The process that is to go on is claimed, and before it runs the connection goes: whether it is lost then.
fn lose(world: &mut World, d: u32) -> Result<bool, NoMemory> {
    let Some(pid) = world.claim(3) else {
        return Ok(false);
    };
    close(world, d)?;
    match world.slice(3, pid)? {
        Sliced::Ran => Ok(false),
        Sliced::Lost => Ok(true),
    }
}

// It is so many seconds later, where the world lives.
fn wait(world: &mut World, seconds: u32) -> bool {
    if world.is_dead() {
        return false;
    }
    let then = world.now().saturating_add(u64::from(seconds));
    world.moment(then);
    true
}

// Whether a call without a text was made, on the connection, of the party or for the seconds of this digit.
fn made(world: &mut World, word: &[u8], digit: u8) -> Result<bool, Fail> {
    let d = u32::from(digit);
    match word {
        b"open" => Ok(world.opened(d)?),
        b"close" => Ok(close(world, d)?),
        b"lose" => Ok(lose(world, d)?),
        b"wait" => Ok(wait(world, d)),
        b"idle" => Ok(world.idle(digit)),
        b"tied" => Ok(world.tied(d)),
        b"died" => {
            world.died(0);
            Ok(world.is_dead())
        }
        b"halt" if !world.is_dead() => {
            world.halt();
            Ok(world.is_stopping())
        }
        _ => Err(Fail::new("a row is no call")),
    }
}

// The answer of a call: a number, or 1 for yes and 0 for no.
fn call(alloc: Global, world: &mut World, row: &[u8]) -> Result<u32, Fail> {
    let (word, rest) = cut_word(row);
    let (number, text) = cut_word(rest);
    let digit = number.first().unwrap_or(&b'0').saturating_sub(b'0');
    match word {
        b"send" => Ok(u32::from(world.input(u32::from(digit), Line::new(alloc, text)?)?)),
        b"exec" => Ok(world.exec(0)?.unwrap_or(0)),
        b"claim" => Ok(world.claim(3).map_or(0, i32::unsigned_abs)),
        b"run" => Ok(run(world)?),
        b"settle" => Ok(settle(world)?),
        _ => Ok(u32::from(made(world, word, digit)?)),
    }
}

// A line is typed, and done.
fn typed(alloc: Global, world: &mut World, d: u32, text: &[u8]) -> Result<u32, Fail> {
    if !world.connected(d) {
        world.opened(d)?;
        let _ = world.take(d, &mut [0; 64]);
    }
    world.input(d, Line::new(alloc, text)?)?;
    settle(world)?;
    Ok(d)
}

// What a connection is sent; where it may part and is leaving, it goes.
fn serve(
    alloc: Global,
    world: &mut World,
    shown: &mut Vec<u8>,
    d: u32,
    parts: bool,
) -> Result<(), Fail> {
    let mut buf = [0; 512];
    let count = world.take(d, &mut buf);
    shown.extend_from_slice(&lines_text(alloc, d, &buf[..count])?)?;
    if parts && world.leaving(d) && close(world, d)? {
        shown.extend_from_slice(&farewell_text(alloc, d)?)?;
    }
    Ok(())
}

// What each connection is sent.
fn serve_all(
    alloc: Global,
    world: &mut World,
    shown: &mut Vec<u8>,
    parts: bool,
) -> Result<(), Fail> {
    for d in 1..=9 {
        serve(alloc, world, shown, d, parts)?;
    }
    Ok(())
}

// A row that is done, behind its answer.
fn show_row(shown: &mut Vec<u8>, answer: u32, done: &[u8]) -> Result<(), Fail> {
    shown.push(b'0' + answer.min(9) as u8)?;
    shown.extend_from_slice(done)?;
    shown.push(b'\n')?;
    Ok(())
}

// A row is done and shown, with what comes of it.
fn play(alloc: Global, world: &mut World, shown: &mut Vec<u8>, part: &[u8]) -> Result<(), Fail> {
    let Some((digit, done)) = part.split_first() else {
        return Ok(());
    };
    let [sign, b' ', row @ ..] = done else {
        return Ok(());
    };
    let answer = match *sign {
        b':' => call(alloc, world, row)?,
        b'>' => typed(alloc, world, u32::from(digit.saturating_sub(b'0')), row)?,
        _ => return Ok(()),
    };
    show_row(shown, answer, done)?;
    serve_all(alloc, world, shown, *sign == b'>')
}

// The rows of a text, with what comes of them on this world.
fn play_all(
    alloc: Global,
    world: &mut World,
    shown: &mut Vec<u8>,
    text: &[u8],
) -> Result<(), Fail> {
    for part in text.split(|byte| b"\n/".contains(byte)) {
        play(alloc, world, shown, trim(part))?;
    }
    Ok(())
}

// The rows of a text, with what comes of them on a new world.
fn replayed(alloc: Global, shown: &mut Vec<u8>, text: &[u8]) -> Result<(), Fail> {
    let mut world = World::starting(alloc)?;
    let played = play_all(alloc, &mut world, shown, text);
    // to drop it here would want a proof for each type that it holds
    let _ = world.into_tale();
    played
}

// The first line that stands otherwise in a text.
fn differing(alloc: Global, found: &[u8], text: &[u8]) -> Result<Option<String>, Fail> {
    let wanted = text.split(|byte| b"\n/".contains(byte));
    let wanted = wanted.chain([b"".as_slice()]);
    let mut pairs = found.split(|byte| *byte == b'\n').zip(wanted);
    match pairs.find(|(a, b)| trim(a) != trim(b)) {
        Some((line, _)) => Ok(Some(String::from_utf8(line.to_vec(alloc)?)?)),
        None => Ok(None),
    }
}

/// Makes the town, and replays a text on it; answers the first line that comes otherwise.
pub fn first_wrong(alloc: Global, text: &str) -> Result<Option<String>, Fail> {
    let text = format!(in alloc; "{TOWN}\n{text}")?;
    let mut found = Vec::new(alloc);
    replayed(alloc, &mut found, text.as_bytes())?;
    differing(alloc, &found, text.as_bytes())
}
