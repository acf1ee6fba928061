// A scene in memory, for tests and as the plain form of the trait.
ghost use Rattle.std.specs.Prelude.{◌≡◌, ◌<◌, ◌≤◌, ◌^◌, length, is_some, MatchOption};
ghost use Rattle.std.specs.Option.{option_copied};
ghost use Rattle.muck_model.specs.Dbrefs.{index_of};
ghost use Rattle.muck_match.specs.inner.Memory.{lower, slot_at, object_at, next_at, above_at, first_at};

use crate::{NOTHING, Scene};
use muck_model::{Dbref, Kind, Line, Row};

/// An object of a [`MemScene`]. What stands behind it in its list, and its place, count only where their number is lower
/// than its own, so every list ends.
#[derive(Drop)]
pub struct MemObject {
    pub kind: Kind,
    pub name: Line,
    pub place: Dbref,
    pub link: Dbref,
    pub first_content: Dbref,
    pub first_exit: Dbref,
    pub next: Dbref,
}

/// Objects by number, at most 2^31 of them.
#[derive(Drop)]
pub struct MemScene {
    objects: Row<MemObject>,
    ghost few: { length objects ≤ 2 ^ 31 },
}

// The place of the number in a list.
fn index_of(d: Dbref) -> Option<usize>
    ensures { result ≡ index_of d }
{
    if d.0 < 0 {
        return None;
    }
    Some(d.0 as usize)
}

// The number, where it is lower than that of the object.
#[tactic(auto, unfolding(crate::specs::inner::Memory::lower))]
fn lower(of: Dbref, d: Dbref) -> Dbref
    ensures { result ≡ lower of d }
{
    let most = index_of(of).unwrap_or(0);
    match index_of(d) {
        Some(n) => { if n < most { d } else { NOTHING } }
        None => NOTHING,
    }
}

impl MemScene {
    /// The scene of these objects; `None` exactly where there are more than 2^31.
    pub fn new(objects: Row<MemObject>) -> Option<MemScene>
        ensures { MatchOption result (2 ^ 31 < length objects) (λ scene. scene.objects ≡ objects) }
    {
        if objects.len() > 0x8000_0000 {
            return None;
        }
        Some(MemScene { objects })
    }

    // The object of that number that isn't garbage.
    #[tactic(auto, unfolding(crate::specs::inner::Memory::object_at, crate::specs::inner::Memory::slot_at))]
    fn object(&self, d: Dbref) -> Option<&MemObject>
        ensures { option_copied result ≡ object_at self.now.objects d }
    {
        let object = self.objects.get(index_of(d)?)?;
        match object.kind {
            Kind::Garbage => None,
            _ => Some(object),
        }
    }

    // What stands behind it in its list.
    #[tactic(auto, unfolding(crate::specs::inner::Memory::next_at))]
    fn behind(&self, d: Dbref) -> Dbref
        ensures { result ≡ next_at self.now.objects d }
    {
        match self.object(d) {
            Some(object) => lower(d, object.next),
            None => NOTHING,
        }
    }
}

impl Scene for MemScene {
    ghost use Rattle.muck_match.specs.inner.Memory.{scenery_of, after_in};

    ghost shown = { λ s. scenery_of s.objects };

    ghost after = { λ s. after_in s.objects };

    #[tactic(auto, unfolding(crate::specs::inner::Memory::scenery_of))]
    fn kind(&self, d: Dbref) -> Option<Kind> {
        let object = self.object(d)?;
        Some(object.kind)
    }

    #[tactic(auto, unfolding(crate::specs::inner::Memory::scenery_of))]
    fn name(&self, d: Dbref) -> Option<&Line> {
        let object = self.object(d)?;
        Some(&object.name)
    }

    #[tactic(auto, using(crate::proofs::Walks::places_step), unfolding(crate::specs::inner::Memory::scenery_of))]
    fn place(&self, d: Dbref) -> Option<Dbref> {
        let object = self.object(d)?;
        Some(lower(d, object.place))
    }

    #[tactic(auto, unfolding(crate::specs::inner::Memory::scenery_of))]
    fn link(&self, d: Dbref) -> Option<Dbref> {
        let object = self.object(d)?;
        Some(object.link)
    }

    #[tactic(auto, unfolding(crate::specs::inner::Memory::scenery_of, crate::specs::inner::Memory::first_at))]
    fn first_content(&self, d: Dbref) -> Dbref {
        match self.object(d) {
            Some(object) => object.first_content,
            None => NOTHING,
        }
    }

    #[tactic(auto, unfolding(crate::specs::inner::Memory::scenery_of, crate::specs::inner::Memory::first_at))]
    fn first_exit(&self, d: Dbref) -> Dbref {
        match self.object(d) {
            Some(object) => object.first_exit,
            None => NOTHING,
        }
    }

    #[tactic(auto, using(crate::proofs::Walks::after_step))]
    fn next(&self, d: Dbref) -> Dbref {
        self.behind(d)
    }

    #[tactic(auto, unfolding(crate::specs::inner::Memory::scenery_of))]
    fn objects(&self) -> u32 {
        self.objects.len() as u32
    }
}
