//! Words that several crates' contracts share: want of memory in place of an answer, a slice at a
//! place, bytes and numbers of two bytes, and the order of byte lists. They stand in `specs/`; the
//! functions here state their laws, and the lemmas in `proofs/` serve the crates above. Beside them
//! stands a value that only clauses read.
#![tactic(auto)]

mod ghost_value;
pub mod laws;
mod order;

pub use ghost_value::GhostValue;
pub use order::{bytes_precede, order_is_strict};
