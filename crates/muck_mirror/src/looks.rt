// Looking into the world of a mirror.
ghost use Rattle.std.specs.Prelude.{◌≡◌, Some, None, IfOk, IsErrOf};
ghost use Rattle.muck_store.specs.Forms.{loaded};
ghost use Rattle.muck_mirror.specs.Laying.{IsSound};
ghost use Rattle.muck_mirror.specs.Looks.{looked_at, examined_at};

use crate::{Mirror, MirrorFault, World};
use muck_db::Db;
use muck_looking::{examine, look};
use muck_model::{Dbref, LineList, NoMemory};
use std::alloc::Global;

// The objects of a world, as a server has them that begins with it.
#[tactic(auto, using(crate::proofs::Loading::loads))]
fn loaded(alloc: Global, world: &World) -> Result<Db, NoMemory>
    requires { IsSound world.now }
    ensures { IfOk result (λ db. db ≡ loaded world.now.objects) }
{
    Db::load(alloc, world.objects())
}

impl Mirror {
    /// What is seen of an object: its long form, its description as it is kept, where that is a text, and under `Contents:` the long forms of what it holds without
    /// the flag D, where there is any. `NoSuchObject` comes exactly where it isn't there or is garbage; else the error is want of memory. It costs a pass over the
    /// objects.
    pub fn look(&self, d: Dbref) -> Result<LineList, MirrorFault>
        ensures lines { IfOk result (λ lines. looked_at self.now d ≡ Some lines) }
        ensures none { IsErrOf result MirrorFault.NoSuchObject → looked_at self.now d ≡ None }
    {
        let db = loaded(self.alloc, self.world())?;
        match look(self.alloc, &db, d)? {
            Some(lines) => Ok(lines),
            None => Err(MirrorFault::NoSuchObject),
        }
    }

    /// What is seen of an object by who controls it: its long form, its owner and its lock. `NoSuchObject` comes exactly where it isn't there or is garbage; else the
    /// error is want of memory. It costs a pass over the objects.
    pub fn examine(&self, d: Dbref) -> Result<LineList, MirrorFault>
        ensures lines { IfOk result (λ lines. examined_at self.now d ≡ Some lines) }
        ensures none { IsErrOf result MirrorFault.NoSuchObject → examined_at self.now d ≡ None }
    {
        let db = loaded(self.alloc, self.world())?;
        match examine(self.alloc, &db, d)? {
            Some(lines) => Ok(lines),
            None => Err(MirrorFault::NoSuchObject),
        }
    }
}
