//! What a thread hands to whoever joins it.

use counted_streams::{Reader, Writer};
use shared_node::Pass;
use std::snapshot::Snapshot;
use stream_service::Served;

/// A conversation that was attended.
#[derive(Drop)]
pub struct Attended<I, O> {
    /// What ended it.
    pub served: Served,
    /// Whether its place is free again.
    pub is_retired: bool,
    // Its pass, what it was read from and what its answers were written on, as they were at its end.
    pub pass: Snapshot<Pass>,
    pub reader: Snapshot<Reader<I>>,
    pub writer: Snapshot<Writer<O>>,
}
