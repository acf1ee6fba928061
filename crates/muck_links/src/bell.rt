// What the threads of a server wait on.
use mio::{Registry, Token, Waker};
use muck_io::Rest;
use std::hint::spin_loop;
use std::rt::Clock;
use std::sync::atomic::{AtomicU64, Ordering};
use std::sync::{OnceLock, Wait};
use std::thread;
use std::time::{Duration, SystemTime, UNIX_EPOCH};

// The party that tends the links, and the one that makes the dumps.
const PORTER: u8 = 0;

const DUMPER: usize = 9;

// As many turns are told apart as are waited for at once, and more.
const TURNS: u64 = 16;

// What a party's word says.
const AWAKE: u64 = 0;

const RESTS: u64 = 1;

// How often a thread looks for its turn before it sleeps, where others run at the same time.
const LOOKS_MOST: u64 = 100;

// A sleep that nothing ends is over then, in milliseconds: while a turn is waited for, and while a party rests, which is done so often.
const TURN_MILLIS: u64 = 50;

const REST_MILLIS: u64 = 1000;

const RESTS_MOST: u64 = 86_400;

// How long a porter sleeps that doesn't look at its links, or at whose door a link may wait, in milliseconds.
const NAP_MILLIS: u64 = 5;

// How long the dumper lets things gather: where it asks for a turn, whoever comes behind it waits until the system lets it run.
const GATHER_MILLIS: u64 = 50;

/// What the threads of a server wait on, each on a word of its own, but for the porter, which waits at its links.
#[derive(Drop)]
pub struct Bell {
    // How often each turn was looked for; more than the most looks: its thread sleeps.
    turns: [AtomicU64; 16],
    // What each party does: AWAKE or RESTS.
    parties: [AtomicU64; 10],
    // 1: a party has ended.
    over: AtomicU64,
    // 1: the porter found nothing to do, and nobody did anything since.
    quiet: AtomicU64,
    // How many milliseconds the porter may wait at its links.
    nap: AtomicU64,
    // 1: something was done that the dumper hasn't looked at.
    done: AtomicU64,
    // Ends the porter's wait at its links.
    waker: OnceLock<Waker>,
}

fn word() -> AtomicU64 {
    AtomicU64::new(0)
}

impl Bell {
    /// Nobody waits so far.
    pub fn new() -> Bell {
        Bell {
            turns: [
                word(),
                word(),
                word(),
                word(),
                word(),
                word(),
                word(),
                word(),
                word(),
                word(),
                word(),
                word(),
                word(),
                word(),
                word(),
                word(),
            ],
            parties: [
                word(),
                word(),
                word(),
                word(),
                word(),
                word(),
                word(),
                word(),
                word(),
                word(),
            ],
            over: word(),
            quiet: word(),
            nap: word(),
            done: word(),
            waker: OnceLock::new(),
        }
    }

    // From now on the porter waits where this registry tells what is ready.
    pub(crate) fn joins(&self, registry: &Registry, token: Token) {
        if let Ok(waker) = Waker::new(registry, token) {
            let _ = self.waker.try_set(waker);
        }
    }

    // How long the porter may wait at its links now: not long while a link may wait that couldn't be let in.
    pub(crate) fn takes_nap(&self, pending: bool) -> Duration {
        let millis = self.nap.swap(0, Ordering::SeqCst);
        let most = if pending { NAP_MILLIS } else { REST_MILLIS };
        Duration::from_millis(millis.min(most))
    }

    // The word of a turn.
    fn turn(&self, turn: u64) -> Option<&AtomicU64> {
        self.turns.get((turn % TURNS) as usize)
    }

    // A link is ready.
    pub(crate) fn came(&self) {
        self.quiet.store(0, Ordering::SeqCst);
    }

    // A party that rests is woken.
    fn wakes(&self, party: usize) {
        let Some(word) = self.parties.get(party) else {
            return;
        };
        if word.load(Ordering::SeqCst) == RESTS && word.swap(AWAKE, Ordering::SeqCst) == RESTS {
            word.wake_one();
        }
    }

    fn wakes_dumper(&self) {
        if self.done.load(Ordering::SeqCst) == 0 {
            self.done.store(1, Ordering::SeqCst);
            self.wakes(DUMPER);
        }
    }

    fn wakes_porter(&self) {
        if self.quiet.load(Ordering::SeqCst) == 0 || self.quiet.swap(0, Ordering::SeqCst) == 0 {
            return;
        }
        if let Some(waker) = self.waker.get() {
            let _ = waker.wake();
        }
    }
}

/// The rest of threads that sleep on a bell until they are woken, or for a while.
#[derive(Drop)]
pub struct BellRest<'b, W: Wait + Clock + Drop> {
    bell: &'b Bell,
    rt: W,
    looks_most: u64,
}

impl<'b, W: Wait + Clock + Drop> BellRest<'b, W> {
    /// A rest on this bell, for threads of which so many may run at once.
    pub fn new(bell: &'b Bell, rt: W, processors: usize) -> Self {
        let looks_most = if processors > 1 { LOOKS_MOST } else { 0 };
        BellRest {
            bell,
            rt,
            looks_most,
        }
    }

    // How many milliseconds are left of this second.
    fn left_of_second(&self) -> u64 {
        let Ok(time) = SystemTime::now(&self.rt) else {
            return REST_MILLIS;
        };
        match time.duration_since(UNIX_EPOCH) {
            Ok(since) => u64::from(1000u32.saturating_sub(since.subsec_millis()).max(1)),
            Err(_) => REST_MILLIS,
        }
    }

    fn naps(&self, millis: u64) {
        let _ = thread::sleep(&self.rt, Duration::from_millis(millis));
    }

    // The porter may wait at its links, in the second round that did nothing; where it doesn't look at them it sleeps a moment here.
    fn rests_porter(&self) {
        let bell = self.bell;
        if bell.nap.load(Ordering::SeqCst) != 0 {
            self.naps(NAP_MILLIS);
        } else if bell.quiet.swap(1, Ordering::SeqCst) != 0 {
            bell.nap.store(self.left_of_second(), Ordering::SeqCst);
        }
    }

    // The dumper sleeps until something was done, and lets more of it gather.
    fn rests_dumper(&self, word: &AtomicU64) {
        let done = &self.bell.done;
        word.store(RESTS, Ordering::SeqCst);
        if done.load(Ordering::SeqCst) == 0 {
            word.park_timeout(&self.rt, RESTS as u32, Duration::from_millis(REST_MILLIS));
        }
        word.store(AWAKE, Ordering::SeqCst);
        if done.load(Ordering::SeqCst) != 0 {
            self.naps(GATHER_MILLIS);
            done.store(0, Ordering::SeqCst);
        }
    }

    // A worker sleeps for a while. As all is done in turns, one that works beside the porter would only make it wait: so it looks where the porter finds
    // nothing to do, or somebody has ended.
    fn rests_worker(&self, word: &AtomicU64) {
        let bell = self.bell;
        word.store(RESTS, Ordering::SeqCst);
        for _ in 0..RESTS_MOST {
            word.park_timeout(&self.rt, RESTS as u32, Duration::from_millis(REST_MILLIS));
            if word.load(Ordering::SeqCst) != RESTS
                || bell.quiet.load(Ordering::SeqCst) != 0
                || bell.over.load(Ordering::SeqCst) != 0
            {
                return;
            }
        }
    }
}

impl<'b, W: Wait + Clock + Drop> Rest for BellRest<'b, W> {
    fn rest(&self, party: u8) {
        let at = usize::from(party);
        let Some(word) = self.bell.parties.get(at) else {
            return;
        };
        if party == PORTER {
            self.rests_porter();
        } else if at == DUMPER {
            self.rests_dumper(word);
        } else {
            self.rests_worker(word);
        }
    }

    fn did(&self, party: u8) {
        let bell = self.bell;
        bell.wakes_dumper();
        if party == PORTER {
            bell.quiet.store(0, Ordering::SeqCst);
        } else {
            bell.wakes_porter();
        }
    }

    fn ended(&self, _party: u8) {
        let bell = self.bell;
        bell.over.store(1, Ordering::SeqCst);
        for party in 1..DUMPER + 1 {
            bell.wakes(party);
        }
        bell.wakes_porter();
    }

    fn pause(&self, turn: u64) {
        let Some(word) = self.bell.turn(turn) else {
            return;
        };
        let looks = word.fetch_add(1, Ordering::SeqCst);
        if looks < self.looks_most {
            spin_loop();
        } else if looks > self.looks_most {
            let now = (looks.wrapping_add(1) & 0xffff_ffff) as u32;
            word.park_timeout(&self.rt, now, Duration::from_millis(TURN_MILLIS));
        }
    }

    fn passed(&self, turn: u64) {
        let Some(word) = self.bell.turn(turn.wrapping_add(1)) else {
            return;
        };
        if word.load(Ordering::SeqCst) != 0 && word.swap(0, Ordering::SeqCst) > self.looks_most {
            word.wake_one();
        }
    }
}
