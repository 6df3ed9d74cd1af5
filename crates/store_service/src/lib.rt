//! A store served from its disk on: opened, run over a stream of event records, and handed back, with the
//! whole promise in one contract; and the same without any premise on disks.
#![tactic(auto)]

mod running;
mod surviving;

// What they answer.
pub use drda_node::RunEnd;
pub use durable_core::OpenError;
pub use rdb_core::PlainState;
pub use running::{run_core, run_store};
pub use surviving::survives;
