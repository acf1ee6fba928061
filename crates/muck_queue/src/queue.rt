// The processes of a world.
ghost use Rattle.std.specs.Prelude.{◌≡◌, ◌≢◌, length, is_some, IfOk, OnOk, OnErr, Some, None};
ghost use Rattle.std.specs.Option.{option_copied, option_map, option_map_or};
ghost use Rattle.muf_model.specs.inner.View.{view};
ghost use Rattle.muck_queue.specs.Queues.{empty_queue, process, next_due, claimed, released, on_process, standing, state_of, without_process, is_queue_full, process_added, has_process_tied, is_busy, reader, oldest_event, ended_tied, ended_running, trigger_cleared, number_most, units_counted, resting, sleeping, process_in_mode, told_line, without_event, woken};
ghost use Rattle.muck_queue.specs.inner.Adding.{Adds, Sends};
ghost use Rattle.muck_queue.specs.inner.Events.{shown};
ghost use Rattle.muck_queue.specs.inner.Leading.{IsNext};
ghost use Rattle.muck_queue.specs.inner.Numbered.{IsNumbered};

use crate::claim::{self, Claim};
use crate::events::ProcessEvent;
use crate::fault::QueueFault;
use crate::mode::{Mode, Wait};
use crate::process::Process;
use crate::processes;
use muck_model::{Dbref, NoMemory, Tune};
use muf_model::{Text, Value};
use muf_running::Running;
use std::alloc::Global;
use std::marker::Model;

/// The processes of a world. Contracts see the processes by rising number, the last number that was given, and the claims,
/// which last until they are released, also those on processes that have ended; that the numbers of the processes rise
/// from 1 on, and that none is above the last, is a rule of the type (`numbered`).
///
/// There are as many processes as a wizard allows, at most 400. Each call costs at most two passes over them; where one is
/// looked for that nobody has claimed, for each process that is due one over the claims, of which each party has one. It
/// costs none where no process is tied to a connection and one of a connection is asked for, or where none can be due yet.
/// Only `add` takes memory, which is for the claim on the new process too.
#[derive(Drop)]
pub struct Queue {
    processes: Vec<Process>,
    last: i32,
    claims: Vec<Claim>,
    // Where it is false, no process is tied to a connection.
    tied: bool,
    // No process that waits for nothing is due before this second.
    soonest: u64,
}

impl Model for Queue {
    ghost use Rattle.std.specs.Coded.{codes};
    ghost use Rattle.muf_running.specs.contracts.running.Running as running;
    ghost use Rattle.muf_model.specs.inner.Codes.{datum_code};
    ghost use Rattle.muck_queue.specs.Queues.{Queue as Table};
    ghost use Rattle.std.specs.Prelude.{vec_capacity};
    ghost use Rattle.muck_queue.specs.inner.Room.{Stands};
    ghost use Rattle.muck_queue.specs.inner.Known.{Knows};

    ghost Value = { Table };

    ghost coded = { Prim.hlevel (codes, datum_code, running.the_row.coded) };

    ghost view = { λ q. record { processes = q.processes.items; last = q.last; claims = q.claims.items } };

    ghost invariant = { λ q. Stands (vec_capacity q.claims) q.last q.claims.items q.processes.items × Knows q.tied q.soonest q.processes.items };
}

impl Queue {
    /// No process. It takes no memory.
    #[tactic(auto, unfolding(crate::specs::Queues::empty_queue))]
    pub fn new(alloc: Global) -> Queue
        ensures { result ≡ empty_queue }
    {
        Queue {
            processes: Vec::new(alloc),
            last: 0,
            claims: Vec::new(alloc),
            tied: false,
            soonest: u64::MAX,
        }
    }

    /// How many processes there are.
    pub fn len(&self) -> usize
        ensures count { result ≡ length self.now.processes }
        ensures numbered { IsNumbered self.now }
    {
        self.processes.len()
    }

    /// Whether no process of that player can be added: there are as many as may be, or as many of this player, or no
    /// number is left.
    #[tactic(auto, unfolding(crate::specs::Queues::is_queue_full, crate::specs::Queues::number_most))]
    pub fn is_full(&self, player: Dbref, tune: &Tune) -> bool
        ensures { result ≡ is_queue_full player tune.now self.now }
    {
        self.processes.len() >= tune.process_limit as usize
            || processes::count_of(&self.processes, player) >= tune.player_processes as usize
            || self.last == i32::MAX
    }

    /// Adds a process behind all others, and answers its number, the one after the last that was given; the number that
    /// it came with is not looked at. `ProcessLimit` comes exactly where the queue is full for its player. After an error
    /// nothing has changed, and the process is gone.
    pub fn add(&mut self, process: Process, tune: &Tune) -> Result<i32, QueueFault>
        ensures { Adds process tune.now self.old self.new result }
    {
        if self.is_full(process.player, tune) {
            return Err(QueueFault::ProcessLimit);
        }
        let number = self.append(process)?;
        Ok(number)
    }

    // Puts a process behind all others, with the next number, and makes room for the claim on it.
    #[tactic(auto, unfolding(crate::specs::Queues::process_added, crate::specs::Queues::number_most))]
    fn append(&mut self, process: Process) -> Result<i32, NoMemory>
        requires { self.old.last ≢ number_most }
        ensures number { IfOk result (λ n. n ≡ self.new.last) }
        ensures state { OnOk result (self.new ≡ process_added process self.old) }
        ensures err { OnErr result (self.new ≡ self.old) }
    {
        let number = self.last + 1;
        let mut process = process;
        process.number = number;
        let tied = process.ties_with(self.tied);
        let soonest = self.soonest.min(process.due);
        self.claims.reserve(self.processes.len() + 1)?;
        self.processes.push(process)?;
        self.last = number;
        self.tied = tied;
        self.soonest = soonest;
        Ok(number)
    }

    /// The number of the process that is to go on next: of those whose second has come and that nobody has claimed, the
    /// one that is due first, and where several are due in one second the one of the lowest number.
    #[tactic(auto, unfolding(crate::specs::Queues::next_due))]
    pub fn next_due(&self, moment: u64) -> Option<i32>
        ensures number { result ≡ next_due moment self.now }
        ensures next { IsNext moment self.now.claims self.now.processes result }
    {
        if moment < self.soonest {
            return None;
        }
        match processes::earliest(&self.processes, &self.claims, moment) {
            Some(p) => Some(p.number),
            None => None,
        }
    }

    /// A party claims the process that is to go on next: it is due and claimed by nobody, and no other such process is due
    /// before it, or in the same second with a lower number. Answers its number; or `None` exactly where there is none, and
    /// nothing has changed. The claim lasts until it is released, also where the process has ended.
    #[tactic(auto, unfolding(crate::specs::Queues::claimed))]
    pub fn claim(&mut self, party: u8, moment: u64) -> Option<i32>
        ensures number { result ≡ next_due moment self.old }
        ensures next { IsNext moment self.old.claims self.old.processes result }
        ensures state { self.new ≡ option_map_or (λ pid. claimed pid party self.old) result self.old }
    {
        let Some(number) = self.next_due(moment) else {
            self.look_ahead(moment);
            return None;
        };
        self.claims.push_reserved(Claim { number, party });
        Some(number)
    }

    // Finds the soonest second anew where it has come.
    fn look_ahead(&mut self, moment: u64)
        ensures { self.new ≡ self.old }
    {
        if moment < self.soonest {
            return;
        }
        self.soonest = processes::soonest(&self.processes);
    }

    /// Nobody claims the process of a number any more; nothing has changed where nobody did.
    #[tactic(auto, unfolding(crate::specs::Queues::released))]
    pub fn release(&mut self, pid: i32)
        ensures { self.new ≡ released pid self.old }
    {
        claim::release(&mut self.claims, pid);
    }

    /// The process of a number.
    pub fn get(&self, pid: i32) -> Option<&Process>
        ensures { option_copied result ≡ process pid self.now }
    {
        processes::find_by(&self.processes, pid)
    }

    /// The processes, by rising number.
    pub fn as_slice(&self) -> &[Process]
        ensures { result.now ≡ self.now.processes }
    {
        &self.processes
    }

    /// Takes out the state of a process, which keeps its place and its number. `None`, and nothing has changed, where
    /// there is no such process or its state is out.
    #[tactic(auto, unfolding(crate::specs::Queues::on_process))]
    pub fn lend(&mut self, pid: i32) -> Option<Running>
        ensures running { result ≡ state_of pid self.old }
        ensures rest { self.new ≡ standing pid None self.old }
    {
        processes::lend(&mut self.processes, pid)
    }

    /// The process of a number stands at this state; nothing has changed where there is no such process.
    #[tactic(auto, unfolding(crate::specs::Queues::on_process))]
    pub fn put_back(&mut self, pid: i32, running: Running)
        ensures { self.new ≡ standing pid (Some running) self.old }
    {
        processes::put_back(&mut self.processes, pid, running);
    }

    /// Ends the process of a number; answers whether it was there, and where it wasn't nothing has changed.
    #[tactic(auto, unfolding(crate::specs::Queues::without_process))]
    pub fn kill(&mut self, pid: i32) -> bool
        ensures there { result ≡ is_some (process pid self.old) }
        ensures rest { self.new ≡ without_process pid self.old }
    {
        let ended = processes::take(&mut self.processes, pid);
        self.tied = processes::are_tied(&self.processes);
        ended.is_some()
    }

    /// The process of a number took so many units; where it isn't there nothing has changed, here and in the calls below.
    #[tactic(auto, unfolding(crate::specs::Queues::on_process))]
    pub fn count(&mut self, pid: i32, units: u32)
        ensures { self.new ≡ on_process pid (units_counted units) self.old }
    {
        processes::count(&mut self.processes, pid, units);
    }

    /// It waits, and counts its units anew when it goes on.
    #[tactic(auto, unfolding(crate::specs::Queues::on_process))]
    pub fn rest(&mut self, pid: i32, wait: Wait)
        ensures { self.new ≡ on_process pid (resting wait) self.old }
    {
        processes::rest(&mut self.processes, pid, wait);
        self.soonest = 0;
    }

    /// It sleeps until this second, and counts its units anew when it goes on.
    #[tactic(auto, unfolding(crate::specs::Queues::on_process))]
    pub fn sleep(&mut self, pid: i32, due: u64)
        ensures { self.new ≡ on_process pid (sleeping due) self.old }
    {
        processes::sleep(&mut self.processes, pid, due);
        self.soonest = self.soonest.min(due);
    }

    /// It is in another mode: in the background without a connection; in preempt a section begins, where it wasn't in preempt.
    #[tactic(auto, unfolding(crate::specs::Queues::on_process))]
    pub fn set_mode(&mut self, pid: i32, mode: Mode)
        ensures { self.new ≡ on_process pid (process_in_mode mode) self.old }
    {
        processes::set_mode(&mut self.processes, pid, mode);
        self.tied = processes::are_tied(&self.processes);
    }

    /// The line for which it waited comes, and it goes on from this second.
    #[tactic(auto, unfolding(crate::specs::Queues::on_process))]
    pub fn give_line(&mut self, pid: i32, moment: u64, line: Text)
        ensures { self.new ≡ on_process pid (told_line moment line) self.old }
    {
        processes::give_line(&mut self.processes, pid, moment, line);
        self.soonest = self.soonest.min(moment);
    }

    /// A slice of it begins at this second, and with it a section of its own. Where it waited for an event, and one came, it has that.
    #[tactic(auto, unfolding(crate::specs::Queues::on_process))]
    pub fn wake(&mut self, pid: i32, moment: u64)
        ensures { self.new ≡ on_process pid (woken moment) self.old }
    {
        processes::wake(&mut self.processes, pid, moment);
        self.soonest = self.soonest.min(moment);
    }

    /// An event comes for the process of a number, behind those that it has; where it waited for one it goes on from this
    /// second. Answers whether the process is there. `TooManyEvents` comes exactly where it has 64. After an error, and where
    /// the process isn't there, nothing has changed.
    #[tactic(auto, unfolding(crate::specs::Queues::on_process))]
    pub fn event(
        &mut self,
        pid: i32,
        moment: u64,
        name: Text,
        item: Value,
    ) -> Result<bool, QueueFault>
        ensures { Sends pid moment (name, view item) self.old self.new result }
    {
        let Some(process) = self.get(pid) else {
            return Ok(false);
        };
        if process.events.len() >= 64 {
            return Err(QueueFault::TooManyEvents);
        }
        processes::give_event(
            &mut self.processes,
            pid,
            moment,
            ProcessEvent { name, data: item },
        )?;
        self.soonest = self.soonest.min(moment);
        Ok(true)
    }

    /// Takes out the oldest event of the process of a number; `None`, and nothing has changed, where it has none.
    #[tactic(auto, unfolding(crate::specs::Queues::on_process, crate::specs::Queues::oldest_event))]
    pub fn take_event(&mut self, pid: i32) -> Option<ProcessEvent>
        ensures event { option_map shown result ≡ oldest_event pid self.old }
        ensures rest { self.new ≡ on_process pid without_event self.old }
    {
        processes::take_event(&mut self.processes, pid)
    }

    /// Whether a process that is tied to the connection doesn't wait for its line.
    #[tactic(auto, unfolding(crate::specs::Queues::is_busy))]
    pub fn is_busy(&self, d: u32) -> bool
        ensures { result ≡ is_busy d self.now }
    {
        if !self.tied {
            return false;
        }
        processes::is_busy(&self.processes, d)
    }

    /// The number of the process that takes the next line of the connection.
    #[tactic(auto, unfolding(crate::specs::Queues::reader))]
    pub fn reader(&self, d: u32) -> Option<i32>
        ensures { result ≡ reader d self.now }
    {
        if !self.tied {
            return None;
        }
        match processes::reader(&self.processes, d) {
            Some(p) => Some(p.number),
            None => None,
        }
    }

    /// Whether a process is tied to the connection.
    #[tactic(auto, unfolding(crate::specs::Queues::has_process_tied))]
    pub fn is_tied(&self, d: u32) -> bool
        ensures { result ≡ has_process_tied d self.now }
    {
        if !self.tied {
            return false;
        }
        processes::is_tied(&self.processes, d)
    }

    /// The processes that are tied to the connection end.
    #[tactic(auto, unfolding(crate::specs::Queues::ended_tied))]
    pub fn end_tied(&mut self, d: u32)
        ensures { self.new ≡ ended_tied d self.old }
    {
        if !self.tied {
            return;
        }
        processes::end_tied(&mut self.processes, d);
        self.tied = processes::are_tied(&self.processes);
    }

    /// The processes that run the program end, also those in which it is a caller of what runs.
    #[tactic(auto, unfolding(crate::specs::Queues::ended_running))]
    pub fn end_running(&mut self, program: Dbref)
        ensures { self.new ≡ ended_running program self.old }
    {
        processes::end_running(&mut self.processes, program);
        self.tied = processes::are_tied(&self.processes);
    }

    /// An object is gone: the processes that it started have the trigger `#-1` from now on.
    #[tactic(auto, unfolding(crate::specs::Queues::trigger_cleared))]
    pub fn clear_trigger(&mut self, trigger: Dbref)
        ensures { self.new ≡ trigger_cleared trigger self.old }
    {
        processes::clear_trigger(&mut self.processes, trigger);
    }
}
