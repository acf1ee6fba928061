// One connection.
ghost use Rattle.std.specs.Prelude.{◌≡◌, ◌≤◌, OnOk, OnErr, IfOk, MatchOption, length, drop, take, min, None, Some, false, [], ◌∷◌, ◌++◌};
ghost use Rattle.std.specs.List.{list_any};
ghost use Rattle.std.specs.Option.{option_map_or};
ghost use Rattle.spec_live.specs.Objects.{same};
ghost use Rattle.spec_live.specs.Output.{bytes_of, output_taken};
ghost use Rattle.spec_live.specs.Connections.{newcomer, takes_line, is_ready, told_where, left, left_where, player_seated, lined, editor_set, edits, edited_where, is_connection_of, hears, has_player};
ghost use Rattle.muck_board.specs.inner.Silent.{quiet, told_lines};

use crate::output::Output;
use crate::sent::Sent;
use muck_lock::Keys;
use muck_model::{Dbref, EditState, Line, NoMemory};
use std::alloc::Global;
use std::collections::VecDeque;
use std::marker::Model;

/// The most lines that wait on a connection.
const WAITING_MOST: usize = 64;

/// Whose it is, the lines that came and wait, the program that is edited on it, whether it is leaving, and what waits to
/// be sent to it.
#[derive(Drop)]
pub struct Connection {
    number: u32,
    player: Option<Dbref>,
    waiting: VecDeque<Line>,
    editor: Option<EditState>,
    leaving: bool,
    output: Output,
}

impl Model for Connection {
    ghost use Rattle.spec_live.specs.Connections.{Connection as Link};

    ghost Value = { Link };

    ghost view = { λ c. record { number = c.number; player = c.player; waiting = c.waiting.items; editor = c.editor; leaving = c.leaving; output = c.output } };
}

impl Connection {
    /// A connection without a player, which is greeted with a text.
    #[tactic(auto, unfolding(spec_live::specs::Output::text_sent))]
    pub(crate) fn new(alloc: Global, number: u32, greeting: &[u8]) -> Result<Self, NoMemory>
        ensures { IfOk result (λ c. c ≡ newcomer number greeting.now) }
    {
        let mut output = Output::new(alloc);
        output.send(&Sent::of_text(alloc, greeting)?)?;
        Ok(Connection {
            number,
            player: None,
            waiting: VecDeque::new(alloc),
            editor: None,
            leaving: false,
            output,
        })
    }

    pub fn number(&self) -> u32
        ensures { result ≡ self.now.number }
    {
        self.number
    }

    pub fn player(&self) -> Option<Dbref>
        ensures { result ≡ self.now.player }
    {
        self.player
    }

    pub fn is_leaving(&self) -> bool
        ensures { result ≡ self.now.leaving }
    {
        self.leaving
    }

    /// Whether another line may wait.
    pub fn takes_line(&self) -> bool
        ensures { result ≡ takes_line self.now }
    {
        !self.leaving && self.waiting.len() < WAITING_MOST
    }

    /// The count of lines that wait.
    pub fn waiting(&self) -> usize
        ensures { result ≡ length self.now.waiting }
    {
        self.waiting.len()
    }

    /// Whether a line waits that may be done.
    pub fn is_ready(&self) -> bool
        ensures { result ≡ is_ready self.now }
    {
        !self.leaving && !self.waiting.is_empty()
    }

    /// How many bytes wait to be sent.
    pub fn queued(&self) -> usize
        ensures count { result ≡ length (bytes_of self.now.output) }
        ensures most { result ≤ 131090 }
    {
        self.output.len()
    }

    /// Whether it is a connection of that player.
    pub fn is_of(&self, player: Dbref) -> bool
        ensures { result ≡ is_connection_of player self.now }
    {
        match self.player {
            Some(own) => player == own,
            None => false,
        }
    }

    /// Whether it has a player.
    pub fn has_player(&self) -> bool
        ensures { result ≡ has_player self.now }
    {
        self.player.is_some()
    }

    /// Whether it is that of a player in the room, but of none of these.
    pub(crate) fn hears<K: Keys>(&self, keys: &K, room: Dbref, but: &[Dbref]) -> bool
        ensures { result ≡ hears (K.places keys.now) room but.now self.now }
    {
        match self.player {
            Some(own) => !is_among(own, but) && is_in(keys, room, own),
            None => false,
        }
    }

    pub(crate) fn add_line(&mut self, line: Line) -> Result<(), NoMemory>
        ensures ok { OnOk result (self.new ≡ lined line self.old) }
        ensures err { OnErr result (self.new ≡ self.old) }
    {
        self.waiting.push_back(line)?;
        Ok(())
    }

    /// Takes the first waiting line.
    pub(crate) fn next_line(&mut self) -> Option<Line>
        ensures { MatchOption result ((self.old.waiting ≡ []) × (self.new ≡ self.old)) (λ line.
            (self.old.waiting ≡ line ∷ self.new.waiting) × (self.new ≡ record self.old { waiting = self.new.waiting })) }
    {
        self.waiting.pop_front()
    }

    /// Sends the lines of a text.
    pub(crate) fn tell(&mut self, sent: &Sent) -> Result<(), NoMemory>
        ensures ok { OnOk result (self.new ≡ told_lines sent.now self.old) }
        ensures rest { quiet self.new ≡ quiet self.old }
    {
        self.output.send(sent)?;
        Ok(())
    }

    pub(crate) fn leave(&mut self)
        ensures { self.new ≡ left self.old }
    {
        self.leaving = true;
    }

    pub(crate) fn seat(&mut self, player: Dbref)
        ensures { self.new ≡ player_seated player self.old }
    {
        self.player = Some(player);
    }

    pub(crate) fn set_editor(&mut self, editor: Option<EditState>)
        ensures { self.new ≡ editor_set editor self.old }
    {
        self.editor = editor;
    }

    /// Takes what is edited out.
    pub(crate) fn take_editor(&mut self) -> Option<EditState>
        ensures editor { result ≡ self.old.editor }
        ensures rest { self.new ≡ editor_set None self.old }
    {
        self.editor.take()
    }

    /// Whether its editor is open on that program.
    pub(crate) fn edits(&self, program: Dbref) -> bool
        ensures { result ≡ edits program self.now }
    {
        match &self.editor {
            Some(editor) => program == editor.program,
            None => false,
        }
    }

    /// Takes the first bytes that wait to be sent, as many as are there and fit.
    pub(crate) fn take(&mut self, buf: &mut [u8]) -> usize
        ensures count { result ≡ min (length (bytes_of self.old.output)) (length buf.old) }
        ensures bytes { take result buf.new ≡ take result (bytes_of self.old.output) }
        ensures rest { self.new ≡ record self.old { output = output_taken result self.old.output } }
        ensures left { bytes_of self.new.output ≡ drop result (bytes_of self.old.output) }
    {
        self.output.take(buf)
    }
}

// Whether a player is one of these.
fn is_among(player: Dbref, these: &[Dbref]) -> bool
    ensures { result ≡ list_any (same player) these.now }
{
    these.iter().any(|d| player == *d)
}

// Whether an object is in that room.
fn is_in<K: Keys>(keys: &K, room: Dbref, d: Dbref) -> bool
    ensures { result ≡ option_map_or (same room) (K.places keys.now d) false }
{
    match keys.place(d) {
        Some(place) => room == place,
        None => false,
    }
}
