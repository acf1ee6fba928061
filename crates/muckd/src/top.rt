// The top call.
ghost use Rattle.std.specs.Prelude.{◌≡◌, ◌↔◌, ℕ, true, false, map, string_bytes, [], List, Some, None};
ghost use Rattle.std.specs.Option.{option_map};
ghost use Rattle.muck_mirroring.specs.Mirroring.{MirrorDone};
ghost use Rattle.muck_watching.specs.Debugged.{DebugDone};
ghost use Rattle.muck_run.specs.Done.{RunDone, DrillDone};
ghost use Rattle.muck_why.specs.Causes.{status_of};
ghost use Rattle.muckd.specs.Serving.{is_served, ServeDone};
ghost use Rattle.muckd.specs.Words.{run, drill, serve, mirror, debug, command_of, seen_command, is_scripted};

use crate::command::{Command, command_of};
use crate::serving::serve_store;
use muck_disk::Disk;
use muck_io::{Clock, Gate, Rest, Sink, Source};
use muck_links::Links;
use muck_mirroring::mirror;
use muck_model::Tale;
use muck_run::{drill, run};
use muck_watching::debug;
use muck_why::Why;
use std::alloc::Global;
use std::sync::Wait;
use std::thread::Threads;

/// How a call of [`muckd`] or [`by_script`] ended: the exit status with its cause, and what happened in the world, in order.
#[derive(Drop)]
pub struct Done {
    pub status: u8,
    pub why: Why,
    pub tale: Tale,
}

/// Does all that a script does, and waits for nobody. The words `run STORE` open the files `STORE.a` and `STORE.b` as the two disks, mount
/// the store that they hold, read the script whole from the source, run it on that world, write its transcript to the sink and dump the
/// world in the end. The words `drill N` play a fixed script on the starting world and write a summary of it. The words `mirror STORE` mount
/// that store, read the script of a mirror, have a mirror follow the store by it, and write its replies; nothing is written to a file. The words `debug STORE` do what
/// those of `run` do, by a script that may have four lines more, and write besides the lines of the units that it shows. No other
/// words are a command here, those of `serve` neither. STORE has 1 to 200 bytes and doesn't begin with `-`; N is 1 to 1000, in decimal without sign
/// or leading zeros.
///
/// The first cause stands: the words, then opening and mounting, then reading the script, then its grammar, then the run, then the last
/// dump. Want of memory may come at any place. Nothing is dumped where the run wasn't begun, and after want of memory; after a fault
/// of the sink the last dump is made all the same.
pub fn by_script<S: Source, K: Sink, D: Disk>(
    alloc: Global,
    words: &[String],
    script: &mut S,
    out: &mut K,
    first: &mut D,
    second: &mut D,
) -> Done
    ensures status { result.status ≡ status_of result.why }

    // Exactly where the words are no command of a script; then nothing was read or written, and no disk was touched.
    ensures usage { (result.why ≡ Why.Usage) ↔ (is_scripted (command_of (map string_bytes words.now)) ≡ false) }
    ensures untouched { result.why ≡ Why.Usage → (script.new ≡ script.old) × (out.new ≡ out.old) × (first.new ≡ first.old) × (second.new ≡ second.old) × (result.tale.entries ≡ []) }

    // What each command comes to, by the answer, with the cause of each answer: `run` one history or nothing, a drill its summary, a mirror the replies to its lines, `debug` what `run` does, with the lines of the units that are shown.
    ensures run { (store : List ℕ) → command_of (map string_bytes words.now) ≡ Some (run store) → RunDone S.left S.faults K.written K.faults D.tells D.attached D.seen D.moment D.images D.faults store result.why script.old script.new out.old out.new first.old second.old first.new second.new result.tale.entries result.tale.notes }
    ensures drill { (n : ℕ) → command_of (map string_bytes words.now) ≡ Some (drill n) → DrillDone K.written K.faults n result.why script.old script.new out.old out.new first.old second.old first.new second.new result.tale.entries }
    ensures mirror { (store : List ℕ) → command_of (map string_bytes words.now) ≡ Some (mirror store) → MirrorDone S.left S.faults K.written K.faults D.tells D.attached D.seen D.moment D.images D.faults store result.why script.old script.new out.old out.new first.old second.old first.new second.new × (result.tale.entries ≡ []) }
    ensures debug { (store : List ℕ) → command_of (map string_bytes words.now) ≡ Some (debug store) → DebugDone S.left S.faults K.written K.faults D.tells D.attached D.seen D.moment D.images D.faults store result.why script.old script.new out.old out.new first.old second.old first.new second.new result.tale.entries result.tale.notes }
{
    let (why, tale) = obey(alloc, command_of(words), script, out, first, second);
    Done {
        status: why.status(),
        why,
        tale,
    }
}

/// Does all that the program does. The words of a script, of a drill, of a mirror and of `debug` do what [`by_script`] says, and touch neither links nor clock.
/// The words `serve STORE PORT WORKERS` open and mount the store, listen on the port, and serve the world to all who come, by a porter, so many
/// workers and a dumper beside each other, until it is stopped; then the world is dumped. PORT is 1 to 65535 and WORKERS 1 to 8, in decimal
/// without sign or leading zeros.
pub fn muckd<
    T: Threads + Wait + Sync,
    S: Source,
    K: Sink,
    L: Links + Send,
    C: Clock + Send,
    D: Disk + Send,
    G: Gate + Sync,
    R: Rest + Sync,
>(
    rt: &T,
    alloc: Global,
    words: &[String],
    script: &mut S,
    out: &mut K,
    links: &mut L,
    clock: &mut C,
    first: &mut D,
    second: &mut D,
    gate: &G,
    rest: &R,
) -> Done
    ensures status { result.status ≡ status_of result.why }

    // Exactly where the words are no command; then nothing was read or written, and no disk was touched.
    ensures usage { (result.why ≡ Why.Usage) ↔ (command_of (map string_bytes words.now) ≡ None) }
    ensures untouched { result.why ≡ Why.Usage → (script.new ≡ script.old) × (out.new ≡ out.old) × (first.new ≡ first.old) × (second.new ≡ second.old) × (result.tale.entries ≡ []) }

    // Links and clock are a server's alone, source and sink those of all others.
    ensures apart { is_served (command_of (map string_bytes words.now)) ≡ false → (links.new ≡ links.old) × (clock.new ≡ clock.old) }
    ensures aside { is_served (command_of (map string_bytes words.now)) ≡ true → (script.new ≡ script.old) × (out.new ≡ out.old) }

    // What each command comes to, by the answer, with the cause of each answer: `run` one history or nothing, a drill its summary, a mirror the replies to its lines, `debug` what `run` does, with the lines of the units that are shown, a server the history of all its parties.
    ensures run { (store : List ℕ) → command_of (map string_bytes words.now) ≡ Some (run store) → RunDone S.left S.faults K.written K.faults D.tells D.attached D.seen D.moment D.images D.faults store result.why script.old script.new out.old out.new first.old second.old first.new second.new result.tale.entries result.tale.notes }
    ensures drill { (n : ℕ) → command_of (map string_bytes words.now) ≡ Some (drill n) → DrillDone K.written K.faults n result.why script.old script.new out.old out.new first.old second.old first.new second.new result.tale.entries }
    ensures mirror { (store : List ℕ) → command_of (map string_bytes words.now) ≡ Some (mirror store) → MirrorDone S.left S.faults K.written K.faults D.tells D.attached D.seen D.moment D.images D.faults store result.why script.old script.new out.old out.new first.old second.old first.new second.new × (result.tale.entries ≡ []) }
    ensures debug { (store : List ℕ) → command_of (map string_bytes words.now) ≡ Some (debug store) → DebugDone S.left S.faults K.written K.faults D.tells D.attached D.seen D.moment D.images D.faults store result.why script.old script.new out.old out.new first.old second.old first.new second.new result.tale.entries result.tale.notes }
    ensures serve { (store : List ℕ) (port workers : ℕ) → command_of (map string_bytes words.now) ≡ Some (serve store port workers) → ServeDone (L.tells links.old) L.told L.listening C.answers D.tells D.attached D.seen D.moment D.images D.faults store port workers result.why links.old links.new clock.old clock.new first.old second.old first.new second.new result.tale.entries result.tale.notes result.tale.counted }
{
    match command_of(words) {
        Some(
            Command::Serve {
                store,
                port,
                workers,
            },
        ) => {
            let (why, tale) = serve_store(
                rt, alloc, store, port, workers, links, clock, first, second, gate, rest,
            );
            Done {
                status: why.status(),
                why,
                tale,
            }
        }
        Some(Command::Run(_) | Command::Drill(_) | Command::Mirror(_) | Command::Debug(_)) | None =>
            { by_script(alloc, words, script, out, first, second) }
    }
}

// What a command of a script does, and why it ends.
fn obey<S: Source, K: Sink, D: Disk>(
    alloc: Global,
    command: Option<Command<'_>>,
    script: &mut S,
    out: &mut K,
    first: &mut D,
    second: &mut D,
) -> (Why, Tale)
    ensures usage { (result.0 ≡ Why.Usage) ↔ (is_scripted (option_map seen_command command.entry) ≡ false) }
    ensures untouched { result.0 ≡ Why.Usage → (script.new ≡ script.old) × (out.new ≡ out.old) × (first.new ≡ first.old) × (second.new ≡ second.old) × (result.1.entries ≡ []) }
    ensures run { (store : List ℕ) → option_map seen_command command.entry ≡ Some (run store) → RunDone S.left S.faults K.written K.faults D.tells D.attached D.seen D.moment D.images D.faults store result.0 script.old script.new out.old out.new first.old second.old first.new second.new result.1.entries result.1.notes }
    ensures drill { (n : ℕ) → option_map seen_command command.entry ≡ Some (drill n) → DrillDone K.written K.faults n result.0 script.old script.new out.old out.new first.old second.old first.new second.new result.1.entries }
    ensures mirror { (store : List ℕ) → option_map seen_command command.entry ≡ Some (mirror store) → MirrorDone S.left S.faults K.written K.faults D.tells D.attached D.seen D.moment D.images D.faults store result.0 script.old script.new out.old out.new first.old second.old first.new second.new × (result.1.entries ≡ []) }
    ensures debug { (store : List ℕ) → option_map seen_command command.entry ≡ Some (debug store) → DebugDone S.left S.faults K.written K.faults D.tells D.attached D.seen D.moment D.images D.faults store result.0 script.old script.new out.old out.new first.old second.old first.new second.new result.1.entries result.1.notes }
{
    match command {
        Some(Command::Run(name)) => run(alloc, name, script, out, first, second),
        Some(Command::Drill(rounds)) => drill(alloc, u64::from(rounds), out),
        Some(Command::Mirror(name)) => (
            mirror(alloc, name, script, out, first, second),
            Tale::none(),
        ),
        Some(Command::Debug(name)) => debug(alloc, name, script, out, first, second),
        Some(
            Command::Serve {
                store: _,
                port: _,
                workers: _,
            },
        ) => (Why::Usage, Tale::none()),
        None => (Why::Usage, Tale::none()),
    }
}
