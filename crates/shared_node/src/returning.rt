//! For whom the leader of a group waits, and for how long.

use core_history::PLACES;
use std::time::Duration;

// For how many groups nobody waits at most, behind waits in vain.
const MOST_WITHOUT: u64 = 7;

// For how many microseconds one waits at most: a device that stood still once is no reason to stand still again.
const MOST_MICROS: u64 = 20_000;

// A group that takes so many microseconds waits for slow syncs.
const SLOW_MICROS: u64 = 500;

/// For whom the leader of the next group waits: for as many wishes as the last group had, as had gathered when it ended, and as many as
/// stood at the lock then; for three fifths of the time that the last group took, 20 ms at most. Where all come back so soon, one group has
/// all of them, which is faster than two that wait for one another; where they take longer, the next group is laid while one counts early.
/// Behind a wait in vain the next group is made without one, behind the next 3 groups, then 7, until one is met. No contract says anything
/// of it.
#[derive(Clone, Copy)]
pub(crate) struct Returning {
    wanted: usize,
    micros: u64,
    without: u64,
    in_vain: u64,
}

impl Returning {
    /// Nobody is waited for.
    pub(crate) fn new() -> Returning {
        Returning {
            wanted: 0,
            micros: 0,
            without: 0,
            in_vain: 0,
        }
    }

    /// A group of so many wishes is made, which took so many microseconds; so many wish already, and so many stand at the lock. One alone is not waited
    /// for, but where syncs are slow and another one wishes already: the two would take turns at the device.
    pub(crate) fn end(&mut self, last: usize, gathered: usize, at_lock: usize, micros: u64) {
        self.micros = (micros / 5).saturating_mul(3).min(MOST_MICROS);
        let take_turns = gathered > 0 && micros >= SLOW_MICROS;
        self.wanted = if last > 1 || at_lock > 0 || take_turns {
            let others = gathered.saturating_add(at_lock);
            last.saturating_add(others).min(PLACES)
        } else {
            0
        };
    }

    /// For how many wishes the leader waits, and how long at most. None where it does not wait.
    pub(crate) fn wait(&mut self) -> Option<(usize, Duration)> {
        if self.wanted == 0 || self.micros == 0 {
            return None;
        }
        if self.without > 0 {
            self.without = self.without.saturating_sub(1);
            return None;
        }
        Some((self.wanted, Duration::from_micros(self.micros)))
    }

    /// The leader has waited, and so many wished then as were waited for, or it was in vain.
    pub(crate) fn waited(&mut self, is_met: bool) {
        self.in_vain = if is_met {
            0
        } else {
            let twice = self.in_vain.saturating_mul(2);
            twice.saturating_add(1).min(MOST_WITHOUT)
        };
        self.without = self.in_vain;
    }
}
