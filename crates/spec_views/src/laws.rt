// The laws of what is seen and shown.
ghost use Rattle.std.specs.Prelude.{List, Bool, ℤ};
ghost use Rattle.muf_debug.specs.declared.places.Spot.{Spot};
ghost use Rattle.muf_debug.specs.declared.view.View.{View};
ghost use Rattle.spec_events.specs.World.{World};
ghost use Rattle.spec_views.specs.Showing.{KeepsThose, IsCut, SeesEach};

/// Says that each unit of a slice is seen once, as one of its process; and that a tracer which is told of views, behind others, keeps exactly the lines of those that are shown:
/// of all while trace is on, and else of those whose program and line a break names, and whose process comes there from elsewhere. A line is no longer than a text. It does nothing.
#[tactic(auto, using(crate::proofs::Showing::sees_each, crate::proofs::Showing::keeps_those))]
pub fn views_shown()
    ensures seen { (pid : ℤ) (w : World) → SeesEach pid w }
    ensures kept { (seen : List View) (on : Bool) (breaks : List Spot) (vs : List View) → KeepsThose seen on breaks vs }
    ensures cut { (v : View) → IsCut v }
{}
