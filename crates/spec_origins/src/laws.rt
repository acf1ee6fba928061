// What holds of every history.
ghost use Rattle.std.specs.Prelude.{◌≡◌, ℕ, List, Option, Some, None};
ghost use Rattle.muck_model.specs.declared.event.Entry.{Entry};
ghost use Rattle.muck_model.specs.declared.tune.Tune.{Tune};
ghost use Rattle.spec_live.specs.declared.mark.Mark.TheVariants.{Gone};
ghost use Rattle.spec_live.specs.Objects.{Entry as Kept, dbref_of, mark_in};
ghost use Rattle.spec_events.specs.Following.{settled};
ghost use Rattle.spec_origins.specs.Clearing.{IsCleared};
ghost use Rattle.spec_events.specs.Histories.{AllLawful};
ghost use Rattle.spec_events.specs.World.{World, world_booted};
ghost use Rattle.spec_origins.specs.Origins.{AllOrigins};
ghost use Rattle.spec_origins.specs.Seats.{AllSeated};
ghost use Rattle.spec_origins.specs.Stops.{AllStops};
ghost use Rattle.spec_origins.specs.There.{StaysThere};

/// Says of every history of a world that is booted with objects of which nothing is to be told, whose each process is, what it is tied
/// to, what it runs, and what an editor builds. It does nothing.
pub fn keeps_origins()
    ensures { (objects : List Kept) (tune : Tune) (moment start : ℕ) → ((n : ℕ) → mark_in objects n ≡ None) → (entries : List Entry) → AllOrigins (world_booted objects tune moment start) entries }
{}

/// Says of every lawful history of such a world which lines wait on each connection, and by what its editor is opened and closed. It does nothing.
pub fn keeps_seats()
    ensures { (objects : List Kept) (tune : Tune) (moment start : ℕ) → ((n : ℕ) → mark_in objects n ≡ None) → (entries : List Entry) → AllLawful (world_booted objects tune moment start) entries → AllSeated (world_booted objects tune moment start) entries }
{}

/// Says of every history by what the world begins to stop. It does nothing.
pub fn keeps_stops()
    ensures { (w : World) (entries : List Entry) → AllStops w entries }
{}

/// Says that an object that is gone is nobody's trigger and that nobody edits it, once that was told. It does nothing.
pub fn clears_what_is_gone()
    ensures { (n : ℕ) (w : World) → mark_in w.live.objects n ≡ Some Gone → IsCleared (dbref_of n) (settled w) }
{}

/// Says of every lawful history of such a world that behind each entry what isn't there is nobody's trigger or program, and that nobody edits it. It does nothing.
pub fn keeps_what_is_there()
    ensures { (objects : List Kept) (tune : Tune) (moment start : ℕ) → ((n : ℕ) → mark_in objects n ≡ None) → (entries : List Entry) → AllLawful (world_booted objects tune moment start) entries → StaysThere (world_booted objects tune moment start) entries }
{}
