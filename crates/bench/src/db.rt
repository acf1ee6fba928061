// Makes things in a world, moves them between two rooms, recycles linked rooms and looks for a player whom nobody knows.
use muck_db::{Db, DbFault};
use muck_match::player;
use muck_model::{Dbref, Kind, Line};
use std::alloc::Global;

const ROOM_ZERO: Dbref = Dbref(0);

const ONE: Dbref = Dbref(1);
// The two rooms, which are made first, and so the number of the first thing.
const HERE: Dbref = Dbref(2);

const THERE: Dbref = Dbref(3);

const FIRST_THING: u32 = 4;

const NAME: &[u8; 7] = b"a thing";

// An object of One's.
fn make(db: &mut Db, alloc: Global, kind: Kind, place: Dbref) -> Result<Dbref, DbFault> {
    match Line::of_text(alloc, NAME) {
        Ok(name) => db.create(alloc, kind, name, ONE, place),
        Err(_) => Err(DbFault::NoMemory),
    }
}

fn make_rooms(db: &mut Db, alloc: Global) -> Result<(), DbFault> {
    make(db, alloc, Kind::Room, ROOM_ZERO)?;
    make(db, alloc, Kind::Room, ROOM_ZERO)?;
    Ok(())
}

fn make_things(db: &mut Db, alloc: Global, count: u32) -> Result<(), DbFault> {
    for _ in 0..count {
        make(db, alloc, Kind::Thing, HERE)?;
    }
    Ok(())
}

fn thing(i: u32) -> Dbref {
    let number = FIRST_THING.saturating_add(i);
    Dbref(i32::try_from(number).unwrap_or(-1))
}

// Where the things are taken on a way from the one room to the other, or back.
fn goal(way: u32) -> Dbref {
    if way % 2 == 0 { THERE } else { HERE }
}

// Moves all things from one room to the other, and back, and so on. The thing that moves is always the oldest in its
// room, which stands last in its list.
fn move_things(db: &mut Db, things: u32, count: u32) -> Result<(), DbFault> {
    let things = things.max(1);
    for i in 0..count {
        db.move_to(thing(i % things), goal(i / things))?;
    }
    Ok(())
}

// A room, and elsewhere an exit that leads there.
fn linked_room(db: &mut Db, alloc: Global) -> Result<Dbref, DbFault> {
    let room = make(db, alloc, Kind::Room, ROOM_ZERO)?;
    let exit = make(db, alloc, Kind::Exit, HERE)?;
    db.set_link(exit, room)?;
    Ok(room)
}

fn linked_rooms(db: &mut Db, alloc: Global, count: u32) -> Result<Vec<Dbref>, DbFault> {
    let mut rooms = Vec::new(alloc);
    for _ in 0..count {
        let room = linked_room(db, alloc)?;
        if rooms.push(room).is_err() {
            return Err(DbFault::NoMemory);
        }
    }
    Ok(rooms)
}

fn recycle_rooms(db: &mut Db, rooms: &[Dbref]) -> Result<(), DbFault> {
    for room in rooms {
        db.recycle(*room)?;
    }
    Ok(())
}

// How many of so many searches find a player whom nobody knows.
fn found(db: &Db, name: &Line, count: u32) -> u32 {
    let mut found = 0u32;
    for _ in 0..count {
        if player(db, name).is_some() {
            found = found.saturating_add(1);
        }
    }
    found
}

// Makes and recycles so many linked rooms.
fn pass_rooms(db: &mut Db, alloc: Global, count: u32) -> Result<(), DbFault> {
    let rooms = linked_rooms(db, alloc, count)?;
    recycle_rooms(db, &rooms)
}

// Does each so many times but for the searches, in a world that has no two rooms yet.
fn work(db: &mut Db, alloc: Global, things: u32, moves: u32, rooms: u32) -> Result<(), DbFault> {
    make_rooms(db, alloc)?;
    make_things(db, alloc, things)?;
    move_things(db, things, moves)?;
    pass_rooms(db, alloc, rooms)
}

// How many objects there are, and how many of so many searches find someone.
fn counted(db: &Db, alloc: Global, searches: u32) -> Option<String> {
    let name = Line::of_text(alloc, NAME).ok()?;
    let found = found(db, &name, searches);
    let objects = db.objects();
    format!(in alloc; "{objects} objects, {found} found").ok()
}

/// Does each so many times; answers how many objects there are then, and how many searches found someone.
pub fn run(alloc: Global, things: u32, moves: u32, rooms: u32, searches: u32) -> Option<String> {
    let mut db = Db::starting(alloc).ok()?;
    match work(&mut db, alloc, things, moves, rooms) {
        Ok(()) => counted(&db, alloc, searches),
        Err(_) => None,
    }
}
