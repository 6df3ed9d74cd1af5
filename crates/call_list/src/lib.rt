//! The list of the calls of a core with what they were answered, which clauses alone read.
#![tactic(auto)]

mod calls;
mod done;

pub use calls::CallList;
pub use done::is_done;
