// Runs a MUF program that reads and writes properties, and moves and names an object, over a world in which Room Zero has many
// properties.
use crate::props::path_of;
use crate::talk::make;
use crate::units::{begin, compiled, empty_frame};
use muck_board::Board;
use muck_db::Db;
use muck_model::{Dbref, Kind, Tune};
use muck_perm::Guard;
use muck_prop::PropValue;
use muf_frame::{Frame, PrimFault};
use muf_model::{Code, Family, MufFault, Prim};
use muf_run::{Local, run_local};
use spec_rights::Actor;
use std::alloc::Global;

const ROOM_ZERO: Dbref = Dbref(0);

const ONE: Dbref = Dbref(1);

// Writes a property.
const PUT: &str = " #0 \"_p5\" 7 setprop";

// Reads it.
const GET: &str = " #0 \"_p5\" getprop pop";

// Goes on to the next property, and looks upward.
const WALK: &str = " #0 \"_p5\" nextprop pop #1 \"_p5\" envprop pop pop";

// Moves a thing to and fro, and names it.
const MOVE: &str = " #2 #3 moveto #2 #0 moveto #2 \"Gem\" setname";

// What the loop of a program does.
fn parts_of(name: &str) -> [&'static str; 4] {
    match name {
        "put" => [PUT, "", "", ""],
        "get" => [GET, "", "", ""],
        "move" => [MOVE, "", "", ""],
        _ => [PUT, GET, WALK, MOVE],
    }
}

fn source_of(alloc: Global, name: &str) -> Option<String> {
    let [first, second, third, fourth] = parts_of(name);
    format!(in alloc; ": main pop begin{first}{second}{third}{fourth} repeat ;").ok()
}

// Room Zero gets so many properties.
fn fill(alloc: Global, db: &mut Db, count: u32) -> Option<()> {
    for number in 0..count {
        let path = path_of(alloc, u64::from(number))?;
        db.put_prop(ROOM_ZERO, path, PropValue::Number(1)).ok()?;
    }
    Some(())
}

// In Room Zero, which gets so many properties, a thing and another room are made.
fn furnish(alloc: Global, db: &mut Db, count: u32) -> Option<()> {
    make(db, alloc, Kind::Thing, 1)?;
    make(db, alloc, Kind::Room, 1)?;
    fill(alloc, db, count)
}

// Uses a primitive of properties or of objects.
fn apply(prim: Prim, guard: &mut Guard, frame: &mut Frame) -> Result<(), PrimFault> {
    match prim.family() {
        Family::Object => prim_db::apply(prim, guard, frame),
        Family::Property => prim_prop::apply(prim, guard, frame),
        _ => Err(PrimFault::Fault(MufFault::NotCompiled)),
    }
}

// Uses the primitive that comes next, and goes behind it.
fn pass(prim: Prim, guard: &mut Guard, frame: &mut Frame) -> Option<()> {
    apply(prim, guard, frame).ok()?;
    frame.go_to(frame.place().checked_add(1)?);
    Some(())
}

// Runs up to a primitive that needs the world and uses it, or for so many units; answers how many are left.
fn turn(
    alloc: Global,
    code: &Code,
    guard: &mut Guard,
    frame: &mut Frame,
    left: u32,
) -> Option<u32> {
    match run_local(alloc, code, frame, left).ok()? {
        Local::Spent => Some(0),
        Local::Shared(prim) => {
            pass(prim, guard, frame)?;
            Some(left.saturating_sub(frame.units().saturating_add(1)))
        }
        _ => None,
    }
}

// Runs for so many units; each turn takes one at least.
fn turns(
    alloc: Global,
    code: &Code,
    guard: &mut Guard,
    frame: &mut Frame,
    most: u32,
) -> Option<()> {
    let mut left = most;
    for _ in 0..most {
        if left == 0 {
            break;
        }
        left = turn(alloc, code, guard, frame, left)?;
    }
    Some(())
}

// One runs the code in a world.
fn ran(alloc: Global, code: &Code, frame: &mut Frame, db: &mut Db, most: u32) -> Option<()> {
    begin(alloc, code, frame)?;
    let mut board = Board::new(alloc, 0, Tune::first());
    let actor = Actor {
        level: 4,
        user: ONE,
        player: ONE,
    };
    let mut guard = Guard::new(alloc, db, &mut board, actor);
    turns(alloc, code, &mut guard, frame, most)
}

// Furnishes a world and runs the code there; answers how many units it was given.
fn worked(
    alloc: Global,
    code: &Code,
    frame: &mut Frame,
    db: &mut Db,
    sizes: (u32, u32),
) -> Option<String> {
    let (units, properties) = sizes;
    furnish(alloc, db, properties)?;
    ran(alloc, code, frame, db, units)?;
    format!(in alloc; "{units} units").ok()
}

/// The program `put`, `get`, `move` or `all` runs for so many units, where Room Zero has so many properties; answers how many
/// units these were.
pub fn run(alloc: Global, program: &str, units: u32, properties: u32) -> Option<String> {
    let source = source_of(alloc, program)?;
    let code = compiled(alloc, source.as_str())?;
    let mut frame = empty_frame(alloc)?;
    let mut db = Db::starting(alloc).ok()?;
    worked(alloc, &code, &mut frame, &mut db, (units, properties))
}
