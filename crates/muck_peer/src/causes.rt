// What is seen of a link and of its connection: whether nothing is left to do, and whether there is a cause to close the connection.
ghost use Rattle.std.specs.Prelude.{◌≡◌, true, false};
ghost use Rattle.spec_events.specs.World.{World as Scene};
ghost use Rattle.spec_events.specs.Histories.{now};
ghost use Rattle.muck_machine.specs.inner.Situations.{situation_in};
ghost use Rattle.muck_peer.specs.Moves.{IsWorkedOff, HasHeard, HasCause};

use crate::Peer;
use muck_machine::{Situation, World};

impl Peer {
    // How its connection stands.
    pub(crate) fn situation(&self, world: &World) -> Situation
        requires { (now world.now).dead ≡ false }
        ensures { result ≡ situation_in self.now.number (now world.now) }
    {
        world.situation(self.number)
    }

    // Whether the link takes no bytes any more: a write was refused after its end, or after the note of the links.
    fn takes_no_more(&self, world: &World) -> bool
        requires { (now world.now).dead ≡ false }
        ensures { result ≡ true → IsWorkedOff self.now (now world.now) }
    {
        if self.refused {
            return true;
        }
        if self.stalled {
            return world.is_stopping();
        }
        false
    }

    // Whether no line waits that may still be done, and all output was written.
    fn is_done(&self, stands: Situation, world: &World) -> bool
        requires alive { (now world.now).dead ≡ false }
        requires seen { stands ≡ situation_in self.now.number (now world.now) }
        ensures { result ≡ true → IsWorkedOff self.now (now world.now) }
    {
        if self.has_unsent() {
            return false;
        }
        let queued = stands.queued;
        if queued > 0 {
            return false;
        }
        if world.is_stopping() {
            return true;
        }
        !stands.ready
    }

    // Whether nothing is left to do for the connection, which stands so.
    fn is_off(&self, stands: Situation, world: &World) -> bool
        requires alive { (now world.now).dead ≡ false }
        requires seen { stands ≡ situation_in self.now.number (now world.now) }
        ensures { result ≡ true → IsWorkedOff self.now (now world.now) }
    {
        if self.takes_no_more(world) {
            return true;
        }
        self.is_done(stands, world)
    }

    /// Whether nothing is left to do for the connection in this world.
    pub fn is_worked_off(&self, world: &World) -> bool
        requires { (now world.now).dead ≡ false }
        ensures { result ≡ true → IsWorkedOff self.now (now world.now) }
    {
        self.is_off(self.situation(world), world)
    }

    // Whether the connection is leaving and all output was written.
    fn may_leave(&self, stands: Situation) -> bool
        ensures { result ≡ true → (w : Scene) → stands ≡ situation_in self.now.number w → HasCause self.now w }
    {
        if self.has_unsent() {
            return false;
        }
        let queued = stands.queued;
        if queued > 0 {
            return false;
        }
        stands.leaving
    }

    // Whether no line that was read may be entered any more.
    fn has_no_more(&self, stands: Situation) -> bool
        ensures { result ≡ true → (w : Scene) → w.dead ≡ false → stands ≡ situation_in self.now.number w → HasHeard self.now w }
    {
        if !self.cutter.has_line() {
            return true;
        }
        !stands.hears
    }

    // Whether the end of the link is a cause.
    fn may_end(&self, stands: Situation, world: &World) -> bool
        requires alive { (now world.now).dead ≡ false }
        requires seen { stands ≡ situation_in self.now.number (now world.now) }
        ensures { result ≡ true → HasCause self.now (now world.now) }
    {
        if !self.ended {
            return false;
        }
        if !self.has_no_more(stands) {
            return false;
        }
        if world.tied(self.number) {
            return true;
        }
        self.is_off(stands, world)
    }

    /// Whether there is a cause to close the connection, which stands so.
    pub(crate) fn may_close(&self, stands: Situation, world: &World) -> bool
        requires alive { (now world.now).dead ≡ false }
        requires seen { stands ≡ situation_in self.now.number (now world.now) }
        ensures { result ≡ true → HasCause self.now (now world.now) }
    {
        if self.faulted {
            return true;
        }
        if self.may_leave(stands) {
            return true;
        }
        self.may_end(stands, world)
    }
}
