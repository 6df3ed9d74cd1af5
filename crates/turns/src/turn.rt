//! What a turn at the lock was like, for people.

use crate::gauge::{Gauge, Lack};

/// What a turn at the lock was like. Of its times no contract says anything.
#[derive(Clone, Copy, Debug, PartialEq, Eq)]
pub struct Turn {
    /// For how many microseconds the lock was waited for; 0 where the clock can't be read.
    pub waited: u64,
    /// For how many microseconds it was held; 0 where the clock can't be read.
    pub held: u64,
    /// The bytes that are left for records, where a checkpoint was written in this turn.
    pub checkpointed: Option<usize>,
    /// How full the store is behind this turn.
    pub gauge: Gauge,
    /// Whether the device failed in this turn.
    pub has_failed: bool,
    /// Whether its call was answered that its record finds no room.
    pub full: Option<Full>,
}

/// A record that finds no room.
#[derive(Clone, Copy, Debug, PartialEq, Eq)]
pub struct Full {
    /// The bytes that it takes and holds.
    pub need: u64,
    /// The bytes that are left.
    pub room: u64,
    /// What it has no room in.
    pub lack: Lack,
}
