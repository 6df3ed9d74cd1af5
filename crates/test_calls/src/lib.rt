//! Calls of a core as a line spells them, scripts of such lines, and answers as they are written down.
#![tactic(auto)]

mod answers;
mod calls;
mod requests;
mod scripts;
mod tally;

pub use answers::{push_answer, push_bytes, push_row, push_text};
pub use calls::Calls;
pub use requests::xid_of;
pub use scripts::Scripts;
