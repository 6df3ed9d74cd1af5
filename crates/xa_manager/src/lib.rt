//! The X/Open XA table of a resource manager (C193 chapter 6): which transaction branches it knows,
//! what a transaction manager may do to each, and what it is answered. It writes to no device: what
//! is due is looked up first, and settled once the caller has recorded it.
#![tactic(auto)]

mod branch;
mod counts;
mod due;
pub mod laws;
mod search;
mod table;
mod xids;

pub use branch::{Branch, BranchState};
pub use due::{Action, Decision, Due, Facts, MAX_BRANCHES, Work};
pub use table::{RestoreError, XaTable};
pub use xa_calls::MAX_IN_DOUBT;
