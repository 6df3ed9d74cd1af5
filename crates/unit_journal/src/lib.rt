//! Records in a region of a disk: each is there wholly or not at all, whatever a crash leaves.
#![tactic(auto)]

mod append;
mod errors;
mod journal;
mod kind;
mod laid_group;
mod laid_record;
pub mod laws;
mod lay;
mod open;
mod record;
mod staged;

pub use errors::{LayError, OpenError};
pub use journal::Journal;
pub use kind::Kind;
pub use laid_group::LaidGroup;
pub use laid_record::LaidRecord;
pub use lay::laid_len;
pub use record::{HEAD_BYTES, Record};
pub use staged::Staged;
