// Whether records make a world that hangs together.
ghost use Rattle.std.specs.Prelude.{◌≡◌, ◌≤◌, length, IfOk};
ghost use Rattle.muck_store.specs.Whole.{is_whole_store};

use crate::kinds::is_player;
use crate::records::kind_of;
use crate::tied::all_tied;
use crate::tree::is_tree;
use muck_codec::Stored;
use muck_model::NoMemory;
use std::alloc::Global;

/// Whether records, by the numbers of their objects from 0 on, make a world that hangs together: there are `#0` and
/// `#1`, a player; each record agrees with the kinds of what it names; and each object but `#0` and garbage stands in
/// the list of its place alone, once, and its places lead up to `#0`.
#[tactic(auto, unfolding(crate::specs::Whole::is_whole_store))]
pub fn is_whole(alloc: Global, records: &[Stored]) -> Result<bool, NoMemory>
    requires few { length records.now ≤ 100000 }
    ensures { IfOk result (λ yes. yes ≡ is_whole_store records.now) }
{
    if !is_player(kind_of(records, 1)) || !all_tied(records) {
        return Ok(false);
    }
    is_tree(alloc, records)
}
