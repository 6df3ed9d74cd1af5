//! What the journal's records say of units of work, with their bytes: a commit, a prepare, a decision; who
//! records what units become, and which record a call makes due.
#![tactic(auto)]

mod device_failed;
mod fronts;
mod group_call;
mod group_error;
pub mod laws;
mod length;
mod memory;
mod phase;
mod read;
mod record;
mod record_contents;
mod record_error;
mod recorder;
mod write;

pub use device_failed::DeviceFailed;
pub use group_call::{Asked, GroupCall};
pub use group_error::GroupError;
pub use length::{
    commit_length, decide_length, forget_length, held_for_decision, held_for_forgetting,
    held_in_doubt, prepare_length,
};
pub use memory::NoRecords;
pub use phase::Phase;
pub use record::UnitRecord;
pub use record_contents::RecordContents;
pub use record_error::RecordError;
pub use recorder::Recorder;
pub use row_values::ReadError;
pub use write::{write_commit, write_decide, write_forget, write_prepare};
