// What matching reads of a world.

use muck_model::{Dbref, Kind, Line};

/// The number that stands for no object, and at the end of a list.
pub const NOTHING: Dbref = Dbref(-1);

/// What the word `home` names.
pub const HOME: Dbref = Dbref(-3);

/// Objects that stand in lists of contents and of exits, and in places. Contracts see which objects are there, the
/// finite lists, and for each object the finite list of its places upward. No call takes memory.
pub trait Scene {
    ghost use Rattle.std.specs.Prelude.{◌≡◌, ◌≤◌, ◌^◌, List, option_map};
    ghost use Rattle.std.specs.Option.{option_copied};
    ghost use Rattle.muck_model.specs.declared.dbref.Dbref.{Dbref};
    ghost use Rattle.muck_match.specs.Scenery.{Sight, Scenery, chain, upward};

    /// What the scene shows.
    ghost shown: { Self → Scenery };

    /// What stands behind an object in the list that it is in.
    ghost after: { Self → Dbref → List Dbref };

    /// What the object is; `None` exactly where it isn't there or is garbage, as with the name, the place and the link.
    fn kind(&self, d: Dbref) -> Option<Kind>
        ensures { result ≡ option_map (λ s. s.kind) ((shown self.now).sight d) };

    /// Its name.
    fn name(&self, d: Dbref) -> Option<&Line>
        ensures { option_copied result ≡ option_map (λ s. s.name) ((shown self.now).sight d) };

    /// Where it is. The list of places upward ends where a place isn't there.
    fn place(&self, d: Dbref) -> Option<Dbref>
        ensures value { result ≡ option_map (λ s. s.place) ((shown self.now).sight d) }
        ensures upward { (shown self.now).places d ≡ upward (shown self.now) result };

    /// What an exit leads to.
    fn link(&self, d: Dbref) -> Option<Dbref>
        ensures { result ≡ option_map (λ s. s.link) ((shown self.now).sight d) };

    /// The first of its contents, or `#-1`.
    fn first_content(&self, d: Dbref) -> Dbref
        ensures { (shown self.now).contents d ≡ chain (after self.now) result };

    /// The first of its exits, or `#-1`.
    fn first_exit(&self, d: Dbref) -> Dbref
        ensures { (shown self.now).exits d ≡ chain (after self.now) result };

    /// What stands behind it in its list, or `#-1` at the end.
    fn next(&self, d: Dbref) -> Dbref
        ensures { after self.now d ≡ chain (after self.now) result };

    /// One above the highest number.
    fn objects(&self) -> u32
        ensures value { result ≡ (shown self.now).count }
        ensures most { result ≤ 2 ^ 31 };
}
