//! Whether it was told that the store is full, and how full.

use crate::notice::{Notice, Part};
use std::sync::atomic::{AtomicU64, Ordering};
use turns::{Full, Gauge, Turn};

/// That a part of the store is so full is told, in parts of a hundred.
const LEVELS: [u64; 3] = [95, 90, 80];

/// What was told, by all threads, of a store that is full or comes to be: that a record finds no room, once until room has come back; and
/// the highest level of its journal, and of the half that its tables take, each level once until a checkpoint has left less.
#[derive(Drop)]
pub struct Fullness {
    told: AtomicU64,
    journal: AtomicU64,
    half: AtomicU64,
}

impl Fullness {
    /// Nothing was told.
    pub fn new() -> Fullness {
        Fullness {
            told: AtomicU64::new(0),
            journal: AtomicU64::new(0),
            half: AtomicU64::new(0),
        }
    }

    /// What is to be told of a turn, if anything.
    pub fn news_of(&self, turn: &Turn) -> Option<Full> {
        let Some(full) = turn.full else {
            if turn.checkpointed.is_some() {
                self.told.store(0, Ordering::SeqCst);
            }
            return None;
        };
        if self.told.swap(1, Ordering::SeqCst) == 0 {
            Some(full)
        } else {
            None
        }
    }

    /// The level of a part of the store that is to be told behind a turn, if any.
    pub fn level_of(&self, part: Part, turn: &Turn) -> Option<Notice> {
        let (gauge, is_less) = (turn.gauge, turn.checkpointed.is_some());
        let level = reached(part, gauge);
        let is_new = match part {
            Part::Journal => rises(&self.journal, level, is_less),
            Part::Half => rises(&self.half, level, is_less),
        };
        if is_new {
            return Some(Notice::Level { part, level, gauge });
        }
        None
    }
}

// Whether a level is higher than what was told, which it is then. Where there may be less now, what was told counts no more.
fn rises(told: &AtomicU64, level: u64, is_less: bool) -> bool {
    let before = if is_less {
        told.swap(level, Ordering::SeqCst)
    } else {
        told.fetch_max(level, Ordering::SeqCst)
    };
    level > before
}

// The highest level that a part of the store has reached, 0 where it has reached none.
fn reached(part: Part, gauge: Gauge) -> u64 {
    let (taken, whole) = match part {
        Part::Journal => (gauge.journal.saturating_sub(gauge.room), gauge.journal),
        Part::Half => (gauge.tables, gauge.half),
    };
    for level in LEVELS {
        if (taken as u64).saturating_mul(100) >= (whole as u64).saturating_mul(level) {
            return level;
        }
    }
    0
}
