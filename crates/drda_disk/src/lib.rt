//! A disk of a fixed size, as a store sees it: what a read gives, and what a crash may leave.
#![tactic(auto)]

mod count;
mod disk;
mod errors;
mod file;
mod flush;
mod fuse;
mod history;
mod laws;
mod layout;
mod memory;
mod positional;
mod region;
mod replay;
mod system;
mod through;
mod transfer;

pub use disk::{Disk, DiskFault};
pub use errors::{DiskError, Full, WriteError};
pub use file::{FileDisk, FileFault};
pub use flush::{Flushed, Flusher};
pub use fuse::FuseDisk;
pub use laws::a_write_is_read_back;
pub use layout::{CLOSED_GATE, OPEN_GATE, PAGE_BYTES};
pub use memory::MemDisk;
pub use positional::{FilePlace, PositionalFile};
pub use region::Region;
pub use system::{FilePath, SystemFile};
pub use through::{read_bytes, write_through};
pub use transfer::DeviceFault;
