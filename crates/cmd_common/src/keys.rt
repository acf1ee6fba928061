// The keys of locks, as players mean them.
ghost use Rattle.std.specs.Prelude.{◌≡◌, IfOk};
ghost use Rattle.muck_lock.specs.Grammar.{lock_of};
ghost use Rattle.muck_lock.specs.inner.Waiting.{IsRead};
ghost use Rattle.spec_commands.specs.Building.{key_kept, keys_in};
ghost use Rattle.muck_perm.specs.inner.Guards.{objects_of};

use muck_db::Db;
use muck_lock::{Finder, LockFault, print, read};
use muck_match::Found;
use muck_model::{Dbref, Kind, Line, Lock, NoMemory};
use muck_perm::Guard;
use std::alloc::Global;

// What the names in a key stand for, as the player finds them.
#[derive(Drop)]
struct KeyNames<'a> {
    db: &'a Db,
    player: Dbref,
}

impl<'a> Finder for KeyNames<'a> {
    ghost use Rattle.std.specs.Prelude.{false};
    ghost use Rattle.std.specs.Option.{option_map_or};
    ghost use Rattle.muck_match.specs.Naming.{thing_found as meant};
    ghost use Rattle.spec_live.specs.Objects.{is_program, object_at};
    ghost use Rattle.spec_live.specs.Seen.{scenery_of};
    ghost use Rattle.spec_commands.specs.Building.{found_one};

    ghost found = { λ names name. found_one (meant (scenery_of names.db.now) names.player name) };

    ghost programs = { λ names x. option_map_or (λ o. is_program o.kind) (object_at x names.db.now) false };

    fn find(&self, name: &Line) -> Option<Dbref> {
        match self.db.find(self.player, name) {
            Found::One(x) => Some(x),
            _ => None,
        }
    }

    fn is_program(&self, x: Dbref) -> bool {
        match self.db.get(x) {
            Some(object) => matches!(object.kind(), Kind::Program),
            None => false,
        }
    }
}

/// The lock that the player means by a key; `BadLock` comes exactly where it means none.
pub fn read_key(guard: &Guard, key: &Line) -> Result<Lock, LockFault>
    ensures { IsRead (lock_of (keys_in (objects_of guard.now) guard.now.actor.player) key.now) result }
{
    let names = KeyNames {
        db: guard.db(),
        player: guard.actor().player,
    };
    read(guard.alloc(), key, &names)
}

/// The text that is kept of a lock, which is the lock as it is printed; `None` exactly where that is too long.
pub fn print_key(alloc: Global, lock: &Lock) -> Result<Option<Line>, NoMemory>
    ensures { IfOk result (λ text. text ≡ key_kept (Ok lock.now)) }
{
    match print(alloc, lock) {
        Ok(text) => Ok(Some(text)),
        Err(LockFault::BadLock { .. }) => Ok(None),
        Err(LockFault::NoMemory) => Err(NoMemory),
    }
}
