// What the rules allow, by whose rights a program runs, and how names are shown.
use crate::objects::flags;
use muck_board::Board;
use muck_db::Db;
use muck_model::{Dbref, Denial, NoMemory};
use muck_perm::{Guard, level, name_shown, user, verdict};
use spec_rights::{Act, Actor};
use std::alloc::Global;
use tests_rows::{Words, add, line, path};

const NOBODY: Actor = Actor {
    level: 0,
    user: Dbref(-1),
    player: Dbref(-1),
};

// An act on one object, by its name.
fn on_one(name: &[u8], object: Dbref) -> Option<Act> {
    Some(match name {
        b"start" => Act::Start { program: object },
        b"near" => Act::Near { object },
        b"walk" => Act::Walk { exit: object },
        b"take" => Act::Take { object },
        b"room" => Act::NewRoom { place: object },
        b"thing" => Act::NewThing { place: object },
        b"edit" => Act::Edit { program: object },
        b"change" => Act::Change { object },
        b"rename" => Act::Rename { object },
        b"password" => Act::Password { player: object },
        b"recycle" => Act::Recycle { object },
        b"call" => Act::Call { program: object },
        _ => return None,
    })
}

// An act on an object and another one, by its name.
fn on_two(name: &[u8], object: Dbref, other: Dbref) -> Option<Act> {
    Some(match name {
        b"move" => Act::Move { object, to: other },
        b"link" => Act::Link { object, to: other },
        b"exit" => Act::NewExit {
            place: object,
            link: other,
        },
        b"owner" => Act::SetOwner {
            object,
            owner: other,
        },
        b"end" => Act::EndProcess {
            player: object,
            program: other,
        },
        _ => return None,
    })
}

// An act on an object by what is written behind it, or one that is on none.
fn on_written(alloc: Global, name: &[u8], object: Dbref, text: &[u8]) -> Result<Act, NoMemory> {
    let level = Words { left: text }.small();
    let flag = flags(text);
    Ok(match name {
        b"flag" => Act::SetFlag { object, flag },
        b"level" => Act::SetLevel { object, level },
        b"read" => Act::Read {
            object,
            path: path(alloc, text)?,
        },
        b"write" => Act::Write {
            object,
            path: path(alloc, text)?,
        },
        b"program" => Act::NewProgram,
        _ => Act::Wizard,
    })
}

// An act by its name, with what it is done to.
fn asked(alloc: Global, words: &mut Words<'_>) -> Result<Act, NoMemory> {
    let name = words.word();
    if name == b"shared".as_slice() {
        return Ok(Act::Shared {
            level: words.small(),
        });
    }
    let object = words.object();
    let text = words.left;
    let other = words.object();
    if let Some(act) = on_one(name, object) {
        return Ok(act);
    }
    match on_two(name, object, other) {
        Some(act) => Ok(act),
        None => on_written(alloc, name, object, text),
    }
}

// `LEVEL USER`: who acts; the user is the player too.
fn actor(words: &mut Words<'_>) -> Actor {
    let level = words.small();
    let user = words.object();
    Actor {
        level,
        user,
        player: user,
    }
}

// The rule of a denial, with the object that it speaks of.
fn told(out: &mut String, denial: Denial) -> Result<(), NoMemory> {
    write!(out, "P{} #{}", denial.rule, denial.object.0)?;
    Ok(())
}

/// `verdict LEVEL USER ACT ..`: the rule that denies the act, or leave.
pub fn ruled(
    alloc: Global,
    out: &mut String,
    db: &Db,
    words: &mut Words<'_>,
) -> Result<(), NoMemory> {
    let actor = actor(words);
    let act = asked(alloc, words)?;
    match verdict(db, &actor, &act) {
        Ok(_) => Ok(out.push_str("leave")?),
        Err(denial) => told(out, denial),
    }
}

/// `password LEVEL USER PLAYER WORD`: a guard is handed on to who acts, who sets a password by leave, and tells all.
pub fn password(
    alloc: Global,
    out: &mut String,
    db: &mut Db,
    board: &mut Board,
    words: &mut Words<'_>,
) -> Result<(), NoMemory> {
    let actor = actor(words);
    let player = words.object();
    let word = line(alloc, words.left)?;
    let mut guard = Guard::new(alloc, db, board, NOBODY);
    let _ = guard.swap_actor(actor);
    let act = Act::Password { player };
    let done = match verdict(guard.db(), &actor, &act) {
        Ok(pass) => guard.set_password(pass, player, 7, &word),
        Err(denial) => return told(out, denial),
    };
    guard.tell_all(b"set")?;
    write!(out, "{done:?}")?;
    Ok(())
}

/// `open D`, `seat D PLAYER`, `take D MOST`: a connection that comes, who sits there, and what it hears.
pub fn hear(
    alloc: Global,
    out: &mut String,
    board: &mut Board,
    words: &mut Words<'_>,
) -> Result<(), NoMemory> {
    let verb = words.word();
    let d = words.number();
    match verb {
        b"open" => board.open(d, b""),
        b"seat" => Ok(board.seat(d, words.object())),
        _ => {
            let mut bytes = vec![in alloc; 0; words.number() as usize]?;
            let count = board.take(d, &mut bytes);
            bytes.truncate(count);
            add(out, &bytes)
        }
    }
}

/// `runs PLAYER TRIGGER PROGRAM CALLER`: the level and the user of a program, which another or none called.
pub fn runs(out: &mut String, db: &Db, words: &mut Words<'_>) -> Result<(), NoMemory> {
    let player = words.object();
    let trigger = words.object();
    let program = words.object();
    let count = usize::from(!words.left.is_empty());
    let caller = [words.object()];
    let callers = &caller[..count];
    let level = level(db, program, callers);
    let user = user(db, player, trigger, program, callers);
    write!(out, "level {level}, user #{}", user.0)?;
    Ok(())
}

/// `shown PLAYER OBJECT`: how the name of an object is shown to a player.
pub fn shown(
    alloc: Global,
    out: &mut String,
    db: &Db,
    words: &mut Words<'_>,
) -> Result<(), NoMemory> {
    let player = words.object();
    let shown = name_shown(alloc, db, player, words.object())?;
    add(out, &shown)
}
