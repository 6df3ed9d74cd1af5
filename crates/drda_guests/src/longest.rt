//! The longest of the times that were told.

ghost use Rattle.std.specs.Prelude.{◌≤◌, ◌*◌, ◌↔◌, IsTrue};

use std::sync::atomic::{AtomicU64, Ordering};

/// A time below it is never told, in microseconds.
const LEAST: u64 = 1_000;

/// The longest of the times that were told, by all threads: few are, since each is at least twice the one before.
#[derive(Drop)]
pub struct Longest {
    told: AtomicU64,
}

impl Longest {
    /// None was told.
    pub fn new() -> Longest {
        Longest {
            told: AtomicU64::new(0),
        }
    }

    /// Whether a time, in microseconds, is to be told; then it is the longest that was.
    pub fn rises_to(&self, micros: u64) -> bool
        ensures { IsTrue result → 1000 ≤ micros }
    {
        let told = self.told.load(Ordering::SeqCst);
        is_much_longer(micros, told) && self.told.fetch_max(micros, Ordering::SeqCst) < micros
    }
}

// Whether a time is worth telling, where this one was told already.
fn is_much_longer(micros: u64, told: u64) -> bool
    ensures { IsTrue result ↔ ((1000 ≤ micros) × (told * 2 ≤ micros)) }
{
    micros >= LEAST && micros / 2 >= told
}
