// What a run of `debug` writes.
ghost use Rattle.muck_debugging.specs.Laws.{ShowsApart};

/// The lines that begin with `!` are those of the units that are shown, and the others are the transcript of the script without the four lines.
pub fn shows_apart()
    ensures { ShowsApart }
{}
