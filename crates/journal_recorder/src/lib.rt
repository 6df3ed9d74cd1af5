//! Units of work recorded in the journal of a disk, rows read from the pages in front of it, and checkpoints.
#![tactic(auto)]

mod ahead;
mod checkpointing;
pub mod laws;
mod laying;
mod laying_all;
mod made;
mod reading;
mod recorder;

pub use checkpointing::{CheckpointError, heuristic_record, prepare_record};
pub use reading::CACHED_PAGES;
pub use recorder::DiskRecorder;
