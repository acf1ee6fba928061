// The numbers of the players, of which more are kept than there are where memory was wanted in making one.
ghost use Rattle.std.specs.Prelude.{◌≡◌, ◌≤◌, ℕ, true, length, IfOk, OnOk};
ghost use Rattle.spec_live.specs.Objects.{is_player};
ghost use Rattle.muck_match.specs.inner.Listed.{IsAmong};
ghost use Rattle.muck_db.specs.inner.Slots.{HasPlayers};

use crate::moves::kind_of;
use crate::slots::Slots;
use muck_model::{Kind, NoMemory};
use std::alloc::Global;

/// The number of what is made is listed, where that is a player. After `NoMemory` the list is as it was.
pub fn list_player(players: &mut Vec<u32>, kind: Kind, n: u32) -> Result<(), NoMemory>
    ensures more { (k : ℕ) → IsAmong players.old.items k → IsAmong players.new.items k }
    ensures listed { OnOk result (is_player kind ≡ true → IsAmong players.new.items n) }
{
    match kind {
        Kind::Player => players.push(n)?,
        _ => {}
    }
    Ok(())
}

/// The numbers of all players.
pub fn players_of(alloc: Global, slots: &Slots) -> Result<Vec<u32>, NoMemory>
    requires { length slots.now.items ≤ 100000 }
    ensures { IfOk result (λ players. HasPlayers slots.now.items players.items) }
{
    let mut players = Vec::new(alloc);
    let n = slots.len() as u32;
    for k in 0..n {
        list_player(&mut players, kind_of(slots, k), k)?;
    }
    Ok(players)
}
