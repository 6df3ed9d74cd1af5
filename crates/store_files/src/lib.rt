//! Files that are stores, and what is reported of them.
#![tactic(auto)]

mod blocks;
mod fault;
mod files;
mod stores;
mod streams;

pub use blocks::reserve_blocks;
pub use fault::Fault;
pub use files::{StoreFiles, SystemDisk, SystemFiles};
pub use stores::{fault_of, fresh, make_file, open_file, open_to_run};
pub use streams::{flush, tell};
