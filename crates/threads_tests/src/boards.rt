//! What one play tells, and where its disk stands.

use crate::sleepers::are_asleep;
use crate::stages::Act;
use shared_node::Turn;
use std::alloc::Global;
use std::sync::Mutex;
use std::sync::atomic::{AtomicU64, Ordering};
use std::thread::yield_now;
use std::time::Duration;

/// How often is looked at most, until what is waited for has come.
pub const LIMIT: u64 = 10_000_000;

/// The same for who sleeps, which takes longer to be seen.
const LOOKS: u64 = 100_000;

/// What the disk does in a sync.
#[derive(Clone, Copy)]
pub enum Deed {
    /// What conversations do at a point, too.
    Does(Act),
    /// It stands until so many conversations sleep, of those that wait for no cue.
    Stands(u64),
    /// So many hours pass by the clock.
    Lasts(u64),
}

/// What the disk does in a sync of this number, counted from 0 in each play.
#[derive(Clone, Copy)]
pub struct Stand {
    pub sync: u64,
    pub deed: Deed,
}

/// How long a call waited for the lock at most, and how long one held it, in whole hours; and how many syncs there were.
#[derive(Clone, Copy)]
pub struct Spent {
    pub waited: u64,
    pub held: u64,
    pub syncs: u64,
}

/// What was told so far in a play, and how many have waited for too long; and what its disk does in which sync. The disk outlasts the
/// play, and so does this.
#[derive(Drop)]
pub struct Board {
    told: AtomicU64,
    late: AtomicU64,
    hours: AtomicU64,
    waited: AtomicU64,
    held: AtomicU64,
    syncs: AtomicU64,
    stands: Mutex<Vec<Stand>>,
}

const HOUR: u64 = 3_600;

const MICROS: u64 = 1_000_000;

impl Board {
    /// Nothing was told, and the disk stands nowhere.
    pub fn new(alloc: Global) -> Board {
        Board {
            told: AtomicU64::new(0),
            late: AtomicU64::new(0),
            hours: AtomicU64::new(0),
            waited: AtomicU64::new(0),
            held: AtomicU64::new(0),
            syncs: AtomicU64::new(0),
            stands: Mutex::new(Vec::new(alloc)),
        }
    }

    /// A play begins, whose disk stands so. None without memory, and while a sync of the one before goes on.
    pub fn begin(&self, stands: &[Stand]) -> Option<()> {
        self.told.store(0, Ordering::SeqCst);
        self.late.store(0, Ordering::SeqCst);
        self.waited.store(0, Ordering::SeqCst);
        self.held.store(0, Ordering::SeqCst);
        self.syncs.store(0, Ordering::SeqCst);
        let mut guard = self.stands.try_lock()?;
        let kept = &mut *guard;
        kept.clear();
        kept.extend_from_slice(stands).ok()
    }

    /// One more is told.
    pub fn tell(&self) {
        self.told.fetch_add(1, Ordering::SeqCst);
    }

    /// How many have waited for too long.
    pub fn late(&self) -> u64 {
        self.late.load(Ordering::SeqCst)
    }

    /// By how much the clock is put forward.
    pub fn ahead(&self) -> Duration {
        Duration::from_secs(self.hours.load(Ordering::SeqCst).saturating_mul(HOUR))
    }

    /// A turn at the lock was like this.
    pub fn note(&self, turn: &Turn) {
        self.waited.fetch_max(turn.waited, Ordering::SeqCst);
        self.held.fetch_max(turn.held, Ordering::SeqCst);
    }

    /// What all turns and syncs of the play were like.
    pub fn spent(&self) -> Spent {
        Spent {
            waited: self.waited.load(Ordering::SeqCst) / (HOUR * MICROS),
            held: self.held.load(Ordering::SeqCst) / (HOUR * MICROS),
            syncs: self.syncs.load(Ordering::SeqCst),
        }
    }

    /// Does at a point what is asked for there.
    pub fn follow(&self, act: Act) {
        match act {
            Act::Tells => self.tell(),
            Act::Awaits(number) => self.note_late(self.is_told(number)),
        }
    }

    // Something was waited for, in time or not.
    fn note_late(&self, has_come: bool) {
        if !has_come {
            self.late.fetch_add(1, Ordering::SeqCst);
        }
    }

    // Waits until this many were told. False where that took too long.
    fn is_told(&self, number: u64) -> bool {
        for _ in 0..LIMIT {
            if self.told.load(Ordering::SeqCst) >= number {
                return true;
            }
            yield_now();
        }
        false
    }

    /// The disk is in one more sync, and does there what is asked for, in its order. A sync beside another one counts as late: it waits for
    /// nobody.
    pub fn reach_sync(&self, files: &HostRuntime, alloc: Global) {
        let sync = self.syncs.fetch_add(1, Ordering::SeqCst);
        let Some(mut guard) = self.stands.try_lock() else {
            self.note_late(false);
            return;
        };
        let stands = &mut *guard;
        for stand in stands.iter() {
            if stand.sync == sync {
                self.stand(files, alloc, stand.deed);
            }
        }
    }

    fn stand(&self, files: &HostRuntime, alloc: Global, deed: Deed) {
        match deed {
            Deed::Does(act) => self.follow(act),
            Deed::Stands(number) => self.note_late(come_to_sleep(files, alloc, number)),
            Deed::Lasts(hours) => {
                self.hours.fetch_add(hours, Ordering::SeqCst);
            }
        }
    }
}

// Waits until so many sleep. False where that took too long.
fn come_to_sleep(files: &HostRuntime, alloc: Global, number: u64) -> bool {
    for _ in 0..LOOKS {
        if are_asleep(files, alloc, number) {
            return true;
        }
        yield_now();
    }
    false
}
