//! Commands from a stream of bytes, however it is cut: the DSSs (data stream structures) of DRDA
//! volume 3. A reader takes the bytes as they come and lends one whole command at a time, out of the
//! one buffer that it has; a writer appends a DSS to a list of bytes.
#![tactic(auto)]

mod fault;
mod format;
mod group;
mod joining;
mod judging;
pub mod laws;
mod looking;
mod overwriting;
mod progress;
mod segments;
mod turn;
mod writing;

pub use fault::{FrameFault, SyntaxCode};
pub use format::{DssType, Format};
pub use group::{Dss, Group};
pub use segments::Segments;
pub use writing::{OpenedDss, close_dss, open_dss, write_dss, written_length};
