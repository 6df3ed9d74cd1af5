//! Streams that are read and written, with counts of what failed.
#![tactic(auto)]

mod fault;
mod reader;
mod ready;
mod tally;
mod writer;

pub use fault::StreamFault;
pub use reader::Reader;
pub use ready::Ready;
pub use writer::Writer;
