// What is hooked to an event: causes, what they fire, and the programs that start.
ghost use Rattle.std.specs.Prelude.{◌≡◌, ◌&&◌, not, ◌++◌, List, [], ◌∷◌, Some, None, if◌then◌else◌, map, IfOk, OnOk};
ghost use Rattle.std.specs.List.{flat_map, list_any};
ghost use Rattle.spec_hooks.specs.Causes.{heard};
ghost use Rattle.spec_hooks.specs.Firing.{player_of};
ghost use Rattle.spec_hooks.specs.Told.{of_move, told, is_number, is_alone, came_by, came_on, went_of};
ghost use Rattle.spec_events.specs.Hooked.{call_of, calls_of, is_limit, started_all};
ghost use Rattle.spec_events.specs.Starting.{by_hook, program_begun};
ghost use Rattle.muck_model.specs.Bytes.{text_fault};
ghost use Rattle.spec_commands.specs.Replies.{says};
ghost use Rattle.spec_commands.specs.Talking.{heard_as, pose_tail};
ghost use Rattle.spec_events.specs.Lines.{spoken_by};
ghost use Rattle.spec_live.specs.Connections.{is_connection, is_connection_of};
ghost use Rattle.spec_live.specs.Lives.{name_at};
ghost use Rattle.muck_turns.specs.inner.Hooks.{GoesOn, MoreIs, hooked_moves, hooked_told, said_of};

use crate::state::State;
use crate::state::deeds::DeedFault;
use muck_board::Connection;
use muck_hook::fires;
use muck_model::{Dbref, Line, NoMemory, TEXT_MOST};
use muck_queue::Mode;
use muf_model::MufFault;
use spec_commands::Outcome;
use spec_events::{Call, Manner};
use spec_hooks::{Cause, Fire, Turned};
use spec_live::Move;
use std::alloc::Global;

/// What a player said, as others hear it.
#[derive(Drop)]
pub(crate) struct Speech {
    pub player: Dbref,
    pub text: Line,
}

fn push_both(bytes: &mut Vec<u8>, first: &[u8], second: &[u8]) -> Result<(), NoMemory>
    ensures { OnOk result (bytes.new.items ≡ bytes.old.items ++ (first.now ++ second.now)) }
{
    bytes.extend_from_slice(first)?;
    bytes.extend_from_slice(second)?;
    Ok(())
}

// What stands behind a player's name where it poses: a space comes first, but for an apostrophe.
fn push_pose(bytes: &mut Vec<u8>, text: &[u8]) -> Result<(), NoMemory>
    ensures { OnOk result (bytes.new.items ≡ bytes.old.items ++ pose_tail text.now) }
{
    match text.first() {
        Some(first) if *first != b'\'' => push_both(bytes, b" ", text),
        _ => push_both(bytes, b"", text),
    }
}

#[tactic(auto, unfolding(spec_commands::specs::Replies::says))]
fn push_says(bytes: &mut Vec<u8>, text: &[u8]) -> Result<(), NoMemory>
    ensures { OnOk result (bytes.new.items ≡ bytes.old.items ++ says text.now) }
{
    push_both(bytes, b" says, \"", text)?;
    bytes.extend_from_slice(b"\"")?;
    Ok(())
}

fn push_spoken(bytes: &mut Vec<u8>, pose: bool, text: &[u8]) -> Result<(), NoMemory>
    ensures { OnOk result (bytes.new.items ≡ bytes.old.items ++ (if pose then pose_tail text.now else says text.now)) }
{
    if pose {
        push_pose(bytes, text)
    } else {
        push_says(bytes, text)
    }
}

fn heard_bytes(alloc: Global, pose: bool, name: &[u8], text: &[u8]) -> Result<Vec<u8>, NoMemory>
    ensures { IfOk result (λ bytes. bytes.items ≡ heard_as pose name.now text.now) }
{
    let mut bytes = Vec::new(alloc);
    bytes.extend_from_slice(name)?;
    push_spoken(&mut bytes, pose, text)?;
    bytes.truncate(TEXT_MOST);
    Ok(bytes)
}

// What others hear of what was said or posed, who see the name of who spoke in front.
fn heard_as(alloc: Global, pose: bool, name: &[u8], text: &[u8]) -> Result<Line, NoMemory>
    requires name { text_fault name.now ≡ None }
    requires text { text_fault text.now ≡ None }
    ensures { IfOk result (λ line. line ≡ heard_as pose name.now text.now) }
{
    let bytes = heard_bytes(alloc, pose, name, text)?;
    let line = Line::of_text_vec(bytes);
    Ok(line)
}

fn push_move(causes: &mut Vec<Cause>, moved: &Move) -> Result<(), NoMemory>
    ensures { OnOk result (causes.new.items ≡ causes.old.items ++ of_move moved.now) }
{
    causes.push(Cause::Depart {
        player: moved.player,
        place: moved.from,
    })?;
    causes.push(Cause::Arrive {
        player: moved.player,
        place: moved.to,
    })?;
    Ok(())
}

// Before one that moved: one whose last connection went with a number up to this one, or whose first one came with one below; what is still to be told of.
#[tactic(auto, using(crate::proofs::Hooks::nobody_more, crate::proofs::Hooks::went_more, crate::proofs::Hooks::went_here, crate::proofs::Hooks::came_more, crate::proofs::Hooks::came_here))]
fn push_before(causes: &mut Vec<Cause>, turned: Turned, moved: &Move) -> Result<Turned, NoMemory>
    ensures { IfOk result (λ rest. (ms : List Move) → (causes.new.items ++ of_move moved.now) ++ told rest ms ≡ causes.old.items ++ told turned (moved.now ∷ ms)) }
{
    match turned {
        Turned::Nobody => Ok(Turned::Nobody),
        Turned::Went(player) => {
            if moved.player.0 < player.0 {
                return Ok(Turned::Went(player));
            }
            causes.push(Cause::Disconnect { player })?;
            Ok(Turned::Nobody)
        }
        Turned::Came(player) => {
            if !(player.0 < moved.player.0) {
                return Ok(Turned::Came(player));
            }
            causes.push(Cause::Connect { player })?;
            Ok(Turned::Nobody)
        }
    }
}

// One that moved, with what is told of before it.
fn push_next(causes: &mut Vec<Cause>, turned: Turned, moved: &Move) -> Result<Turned, NoMemory>
    ensures { IfOk result (λ rest. (ms : List Move) → causes.new.items ++ told rest ms ≡ causes.old.items ++ told turned (moved.now ∷ ms)) }
{
    let rest = push_before(causes, turned, moved)?;
    push_move(causes, moved)?;
    Ok(rest)
}

// Behind all that moved.
#[tactic(auto, unfolding(spec_hooks::specs::Told::told))]
fn push_rest(causes: &mut Vec<Cause>, turned: Turned) -> Result<(), NoMemory>
    ensures { OnOk result (causes.new.items ≡ causes.old.items ++ told turned []) }
{
    match turned {
        Turned::Nobody => Ok(()),
        Turned::Went(player) => {
            causes.push(Cause::Disconnect { player })?;
            Ok(())
        }
        Turned::Came(player) => {
            causes.push(Cause::Connect { player })?;
            Ok(())
        }
    }
}

// All of them, by rising number.
fn push_told(causes: &mut Vec<Cause>, turned: Turned, moves: &[Move]) -> Result<(), NoMemory>
    ensures { OnOk result (causes.new.items ≡ causes.old.items ++ told turned moves.now) }
{
    let mut rest = turned;
    for moved in moves {
        let next = push_next(causes, rest, moved)?;
        rest = next;
    }
    push_rest(causes, rest)
}

fn player_of(cause: &Cause) -> Dbref
    ensures { result ≡ player_of cause.now }
{
    match cause {
        Cause::Arrive { player, .. }
        | Cause::Depart { player, .. }
        | Cause::Connect { player }
        | Cause::Disconnect { player }
        | Cause::Listen { player, .. } => *player,
    }
}

// A program is started for the player of the cause.
#[tactic(auto, unfolding(spec_events::specs::Hooked::hook_command))]
fn call_of(alloc: Global, cause: &Cause, fire: &Fire) -> Result<Call, NoMemory>
    ensures { IfOk result (λ call. call ≡ call_of cause.now fire.now) }
{
    Ok(Call {
        player: player_of(cause),
        program: fire.program,
        trigger: fire.trigger,
        command: Line::of_text(alloc, b"(hook)")?,
        argument: fire.arg.copy(alloc)?,
    })
}

fn copy_call(alloc: Global, call: &Call) -> Result<Call, NoMemory>
    ensures { IfOk result (λ copy. copy ≡ call.now) }
{
    Ok(Call {
        player: call.player,
        program: call.program,
        trigger: call.trigger,
        command: call.command.copy(alloc)?,
        argument: call.argument.copy(alloc)?,
    })
}

// Whether a limit refused it.
fn is_limit(fault: &MufFault) -> bool
    ensures { result ≡ is_limit fault.now }
{
    matches!(fault, MufFault::ProcessLimit)
}

fn push_calls(
    alloc: Global,
    cause: &Cause,
    fires: &[Fire],
    calls: &mut Vec<Call>,
) -> Result<(), NoMemory>
    ensures { OnOk result (calls.new.items ≡ calls.old.items ++ map (call_of cause.now) fires.now) }
{
    for fire in fires {
        calls.push(call_of(alloc, cause, fire)?)?;
    }
    Ok(())
}

// Whether others may start behind one that was to start so.
fn more_is(begun: Result<i32, DeedFault>) -> Result<bool, NoMemory>
    ensures { MoreIs begun result }
{
    match begun {
        Ok(_) => Ok(true),
        Err(DeedFault::Fault(fault)) => Ok(!is_limit(&fault)),
        Err(DeedFault::NoMemory) => Err(NoMemory),
    }
}

// It is a connection of this player, and another than `d`.
fn is_other_of(player: Dbref, d: u32, connection: &Connection) -> bool
    ensures { result ≡ (is_connection_of player connection.now && not (is_connection d connection.now)) }
{
    connection.is_of(player) && connection.number() != d
}

impl State {
    /// Behind an event: what is hooked to who moved, to whose connections came or went, and to what was said. Where nobody moved, came, went or spoke, nothing is looked at.
    #[tactic(auto, unfolding(crate::specs::inner::Hooks::hooked_told))]
    pub(crate) fn hook(&mut self, turned: Turned, said: Option<Speech>) -> Result<(), NoMemory>
        ensures { OnOk result (self.new ≡ hooked_told turned (said_of said) self.old) }
    {
        let moves = self.db.moves(self.alloc)?;
        self.db.settle();
        self.hook_moves(turned, &moves, said)
    }

    // To these who moved.
    fn hook_moves(
        &mut self,
        turned: Turned,
        moves: &[Move],
        said: Option<Speech>,
    ) -> Result<(), NoMemory>
        ensures { OnOk result (self.new ≡ hooked_moves turned moves.now (said_of said) self.old) }
    {
        let causes = self.causes(turned, moves, said)?;
        let calls = self.calls(&causes)?;
        self.start_all(&calls)
    }

    /// What was said by a line that ended so.
    pub(crate) fn speech(
        &self,
        player: Dbref,
        outcome: &Outcome,
    ) -> Result<Option<Speech>, NoMemory>
        ensures { IfOk result (λ said. said_of said ≡ spoken_by player (self.now.live, outcome.now)) }
    {
        match outcome {
            Outcome::Said { pose, text } => {
                let text = heard_as(self.alloc, *pose, self.name_of(player), text.as_slice())?;
                Ok(Some(Speech { player, text }))
            }
            Outcome::Done
            | Outcome::NotMine
            | Outcome::Start { .. }
            | Outcome::Edit(_)
            | Outcome::Leave
            | Outcome::Dump
            | Outcome::Stop
            | Outcome::Retune(_) => Ok(None),
        }
    }

    // The name of an object, nothing where it isn't there.
    fn name_of(&self, x: Dbref) -> &[u8]
        ensures bytes { result.now ≡ name_at x self.now.live }
        ensures text { text_fault result.now ≡ None }
    {
        match self.db.get(x) {
            Some(object) => object.name().as_slice(),
            None => b"",
        }
    }

    // It is a number from 0 on, below that of the objects.
    fn is_number(&self, player: Dbref) -> bool
        ensures { result ≡ is_number player self.now.live }
    {
        if player.0 < 0 {
            return false;
        }
        (player.0 as u32) < self.db.count()
    }

    // Another connection than `d` is of this player.
    fn has_other(&self, d: u32, player: Dbref) -> bool
        ensures { result ≡ list_any (λ c. is_connection_of player c && not (is_connection d c)) self.now.live.board.connections }
    {
        self.board
            .connections()
            .iter()
            .any(|c| is_other_of(player, d, c))
    }

    // No other connection than `d` is of this player.
    fn is_alone(&self, d: u32, player: Dbref) -> bool
        ensures { result ≡ is_alone d player self.now.live }
    {
        !self.has_other(d, player)
    }

    /// Of which player the first connection came by a line of the connection `d`, whose player was this one before.
    pub(crate) fn came(&self, d: u32, before: Option<Dbref>) -> Turned
        ensures { result ≡ came_on d before self.now.live }
    {
        match (before, self.player_of(d)) {
            (None, Some(player)) => self.came_first(d, player),
            (None, None) => Turned::Nobody,
            (Some(_), _) => Turned::Nobody,
        }
    }

    // Of one who had none there.
    fn came_first(&self, d: u32, player: Dbref) -> Turned
        ensures { result ≡ came_by d None (Some player) self.now.live }
    {
        if self.is_number(player) && self.is_alone(d, player) {
            return Turned::Came(player);
        }
        Turned::Nobody
    }

    /// Of which player the last connection went, where one of it did.
    pub(crate) fn went(&self, player: Option<Dbref>) -> Turned
        ensures { result ≡ went_of player self.now.live }
    {
        match player {
            Some(player) => self.went_last(player),
            None => Turned::Nobody,
        }
    }

    fn went_last(&self, player: Dbref) -> Turned
        ensures { result ≡ went_of (Some player) self.now.live }
    {
        if self.is_number(player) && !self.board.is_in(player) {
            return Turned::Went(player);
        }
        Turned::Nobody
    }

    fn causes(
        &self,
        turned: Turned,
        moves: &[Move],
        said: Option<Speech>,
    ) -> Result<Vec<Cause>, NoMemory>
        ensures { IfOk result (λ causes. causes.items ≡ told turned moves.now ++ heard self.now.live (said_of said)) }
    {
        let mut causes = Vec::new(self.alloc);
        push_told(&mut causes, turned, moves)?;
        self.push_heard(&mut causes, said)?;
        Ok(causes)
    }

    // What was said is heard where who said it stands.
    fn push_heard(&self, causes: &mut Vec<Cause>, said: Option<Speech>) -> Result<(), NoMemory>
        ensures { OnOk result (causes.new.items ≡ causes.old.items ++ heard self.now.live (said_of said)) }
    {
        match said {
            Some(Speech { player, text }) => {
                let place = self.place_of(player);
                causes.push(Cause::Listen {
                    player,
                    place,
                    text,
                })?;
                Ok(())
            }
            None => Ok(()),
        }
    }

    // What causes fire, as calls.
    fn calls(&self, causes: &[Cause]) -> Result<Vec<Call>, NoMemory>
        ensures { IfOk result (λ calls. calls.items ≡ flat_map (calls_of self.now.live.objects) causes.now) }
    {
        let mut calls = Vec::new(self.alloc);
        for cause in causes {
            self.fire(cause, &mut calls)?;
        }
        Ok(calls)
    }

    fn fire(&self, cause: &Cause, calls: &mut Vec<Call>) -> Result<(), NoMemory>
        ensures { OnOk result (calls.new.items ≡ calls.old.items ++ calls_of self.now.live.objects cause.now) }
    {
        let fired = fires(self.alloc, &self.db, cause)?;
        push_calls(self.alloc, cause, &fired, calls)
    }

    // As a hook starts a program.
    fn manner(&self) -> Manner
        ensures { result ≡ by_hook self.now }
    {
        Manner {
            descr: None,
            mode: Mode::Background,
            due: self.moment,
        }
    }

    // A program is started; whether others may be behind it.
    fn start_one(&mut self, call: &Call) -> Result<bool, NoMemory>
        ensures { IfOk result (λ more. GoesOn (program_begun (by_hook self.old) call.now self.old) self.new more) }
    {
        let manner = self.manner();
        let copy = copy_call(self.alloc, call)?;
        let begun = self.begin(manner, copy);
        more_is(begun)
    }

    // From the first process that a limit refuses, the rest is passed over.
    fn start_all(&mut self, calls: &[Call]) -> Result<(), NoMemory>
        ensures { OnOk result (self.new ≡ started_all calls.now self.old) }
    {
        for call in calls {
            let more = self.start_one(call)?;
            if !more {
                return Ok(());
            }
        }
        Ok(())
    }
}
