//! What turns at the lock are told to be like.

use shared_node::{Gate, Turn};
use std::sync::atomic::{AtomicU64, Ordering};

/// How many turns were told, those in which the device failed, and those in which a checkpoint was written.
#[derive(Clone, Copy)]
pub struct Told {
    pub turns: u64,
    pub failures: u64,
    pub checkpoints: u64,
}

/// A gate that stands open, and counts the same.
#[derive(Drop)]
pub struct Tally {
    turns: AtomicU64,
    failures: AtomicU64,
    checkpoints: AtomicU64,
}

impl Tally {
    /// None was told.
    pub fn new() -> Tally {
        Tally {
            turns: AtomicU64::new(0),
            failures: AtomicU64::new(0),
            checkpoints: AtomicU64::new(0),
        }
    }

    /// What was told.
    pub fn told(&self) -> Told {
        Told {
            turns: self.turns.load(Ordering::SeqCst),
            failures: self.failures.load(Ordering::SeqCst),
            checkpoints: self.checkpoints.load(Ordering::SeqCst),
        }
    }
}

impl Gate for Tally {
    fn turn(&self, _conversation: u64, _n: u64) {}

    fn after(&self, _conversation: u64, turn: &Turn) {
        self.turns.fetch_add(1, Ordering::SeqCst);
        if turn.has_failed {
            self.failures.fetch_add(1, Ordering::SeqCst);
        }
        if turn.checkpointed.is_some() {
            self.checkpoints.fetch_add(1, Ordering::SeqCst);
        }
    }
}
