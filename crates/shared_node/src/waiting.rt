//! Who waits to be served together.

use crate::returning::Returning;
use crate::turn::{micros_between, time};
use core_history::{PLACES, Wish};
use std::alloc::{AllocError, Global};
use std::mem::swap;
use std::sync::atomic::{AtomicU64, Ordering};
use std::sync::{Condvar, Mutex, Wait};
use std::time::{Clock, Duration, Instant};

// A group whose wishes were taken: when, how many they were, and how many sleep for it.
#[derive(Clone, Copy)]
struct Taken {
    at: Option<Instant>,
    wishes: usize,
    sleep: u64,
}

// No group.
const NONE_TAKEN: Taken = Taken {
    at: None,
    wishes: 0,
    sleep: 0,
};

// The wishes that wait, and the groups in which they are fulfilled: which one gathers now, and how many sleep for it; how many were made; the
// one that is being made, and the one that is laid behind it. For how many wishes the leader waits now, 0 where it does not, and for how many
// the next one does.
#[derive(Drop)]
struct Line {
    wishes: Vec<Wish>,
    gathers: u64,
    sleep: u64,
    made: u64,
    is_led: bool,
    led: Taken,
    laid: Taken,
    wanted: usize,
    returning: Returning,
}

impl Line {
    // Takes all wishes, in place of those in a list; the next group gathers.
    fn take<R: Clock>(&mut self, rt: &R, wishes: &mut Vec<Wish>) -> Taken {
        wishes.clear();
        swap(&mut self.wishes, wishes);
        self.gathers = self.gathers.wrapping_add(1);
        let sleep = self.sleep;
        self.sleep = 0;
        Taken {
            at: time(rt),
            wishes: wishes.len(),
            sleep,
        }
    }

    // Whether a group waits: it is not made, and another one is led or comes before it.
    fn waits(&self, group: u64) -> bool {
        self.made < group && (self.is_led || self.made.wrapping_add(1) < group)
    }
}

/// Which group is led.
#[derive(Clone, Copy, Debug, PartialEq, Eq)]
pub(crate) enum Led {
    /// The one that gathers: its wishes are to be taken.
    Gathered,
    /// The one that was laid behind the last.
    Laid,
}

/// Who waits to commit, to prepare or to decide a branch, beside the lock, which is never waited for while the line is held. One of a group
/// leads: it takes all wishes and makes the calls of all of them, while the next group gathers. Where some wish already as its own counts
/// on the disk, their group is taken and laid behind it then; and one of that leads next.
/// Before, it lets those calls go that came to the lock before it, since who made them may commit next, and waits for those who come back.
/// No contract says anything of it; a wish that nobody fulfils is one that its own conversation does.
#[derive(Drop)]
pub(crate) struct Waiting {
    line: Mutex<Line>,
    are_made: [Condvar; 3],
    have_come: Condvar,
    have_gone: Condvar,
    came: AtomicU64,
    gone: AtomicU64,
    awaited: AtomicU64,
}

impl Waiting {
    /// Nobody waits. There is memory for the wishes of as many as may have leave; it may be refused.
    pub(crate) fn new(alloc: Global) -> Result<Waiting, AllocError> {
        let wishes = Vec::with_capacity(alloc, PLACES)?;
        Ok(Waiting {
            line: Mutex::new(Line {
                wishes,
                gathers: 1,
                sleep: 0,
                made: 0,
                is_led: false,
                led: NONE_TAKEN,
                laid: NONE_TAKEN,
                wanted: 0,
                returning: Returning::new(),
            }),
            are_made: [Condvar::new(), Condvar::new(), Condvar::new()],
            have_come: Condvar::new(),
            have_gone: Condvar::new(),
            came: AtomicU64::new(0),
            gone: AtomicU64::new(0),
            awaited: AtomicU64::new(0),
        })
    }

    /// A conversation has a wish. Returns which group it leads, which it then ends; None where its group was made.
    pub(crate) fn wish<R: Wait + Clock>(&self, rt: &R, wish: Wish) -> Option<Led> {
        let mut line = self.line.lock(rt);
        let group = line.gathers;
        if line.wishes.len() < PLACES {
            let _ = line.wishes.push(wish);
        }
        if line.wishes.len() == line.wanted {
            self.have_come.notify_one();
        }
        line.sleep = line.sleep.wrapping_add(1);
        let mut line = self
            .is_made(group)
            .wait_while(rt, line, |line| line.waits(group));
        if line.made >= group {
            return None;
        }
        line.is_led = true;
        if group != line.gathers {
            line.led.sleep = line.led.sleep.wrapping_sub(1);
            return Some(Led::Laid);
        }
        line.sleep = line.sleep.wrapping_sub(1);
        let waits = line.returning.wait();
        drop(line);
        self.let_go(rt);
        if let Some((wanted, time)) = waits {
            self.await_those(rt, wanted, time);
        }
        Some(Led::Gathered)
    }

    // Where those sleep who have a wish in a group: each third group apart, so that the end of one wakes its own.
    fn is_made(&self, group: u64) -> &Condvar {
        let [first, second, third] = &self.are_made;
        match group % 3 {
            0 => first,
            1 => second,
            _ => third,
        }
    }

    // Waits until so many wish, for so long at most.
    fn await_those<R: Wait + Clock>(&self, rt: &R, wanted: usize, time: Duration) {
        let mut line = self.line.lock(rt);
        line.wanted = wanted;
        let (mut line, _) = self
            .have_come
            .wait_timeout_while(rt, line, time, |line| line.wishes.len() < line.wanted);
        line.wanted = 0;
        let is_met = line.wishes.len() >= wanted;
        line.returning.waited(is_met);
    }

    // Those calls that have come to the lock so far get it first.
    fn let_go<R: Wait>(&self, rt: &R) {
        let came = self.came.load(Ordering::SeqCst);
        self.awaited.store(came, Ordering::SeqCst);
        if self.gone.load(Ordering::SeqCst) < came {
            let gone = &self.gone;
            let line = self.line.lock(rt);
            let _line = self
                .have_gone
                .wait_while(rt, line, |_| gone.load(Ordering::SeqCst) < came);
        }
    }

    /// Takes all wishes for the group that is led, in place of those in this list; the next group gathers.
    pub(crate) fn take<R: Wait + Clock>(&self, rt: &R, wishes: &mut Vec<Wish>) {
        let mut line = self.line.lock(rt);
        line.led = line.take(rt, wishes);
    }

    /// Takes all wishes for the group behind the one that is led, in place of those in this list, if there are any; the next group gathers.
    pub(crate) fn take_next<R: Wait + Clock>(&self, rt: &R, wishes: &mut Vec<Wish>) {
        let mut line = self.line.lock(rt);
        if line.wishes.is_empty() {
            wishes.clear();
        } else {
            line.laid = line.take(rt, wishes);
        }
    }

    /// The group that was led is made. All who slept for it come to the lock now, to collect; the next leader is one of those whose group was
    /// laid, or of those who have gathered, and lets them go first.
    pub(crate) fn end<R: Wait + Clock>(&self, rt: &R) {
        let mut guard = self.line.lock(rt);
        let line = &mut *guard;
        let micros = micros_between(line.led.at, time(rt));
        let at_lock = self.at_lock();
        let gathered = line.wishes.len();
        let last = line.led.wishes;
        line.returning.end(last, gathered, at_lock as usize, micros);
        self.came.fetch_add(line.led.sleep, Ordering::SeqCst);
        line.led = line.laid;
        line.laid = NONE_TAKEN;
        let made = line.made.wrapping_add(1);
        line.made = made;
        line.is_led = false;
        drop(guard);
        self.is_made(made).notify_all();
        self.is_made(made.wrapping_add(1)).notify_one();
    }

    /// How many calls have come to the lock so far.
    pub(crate) fn come_so_far(&self) -> u64 {
        self.came.load(Ordering::SeqCst)
    }

    /// How many stand at the lock.
    pub(crate) fn at_lock(&self) -> u64 {
        let gone = self.gone.load(Ordering::SeqCst);
        self.come_so_far().wrapping_sub(gone)
    }

    /// A call that nobody wished for comes to the lock.
    pub(crate) fn come(&self) {
        self.came.fetch_add(1, Ordering::SeqCst);
    }

    /// A call has the lock that came to it, or slept for its group.
    pub(crate) fn go<R: Wait>(&self, rt: &R) {
        let gone = self.gone.fetch_add(1, Ordering::SeqCst).wrapping_add(1);
        if gone == self.awaited.load(Ordering::SeqCst) {
            let line = self.line.lock(rt);
            drop(line);
            self.have_gone.notify_one();
        }
    }
}
