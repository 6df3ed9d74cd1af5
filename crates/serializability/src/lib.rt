//! Units that run side by side, and the law of their serial order: over any words that meet a list of laws,
//! over the statements of SQL, and over the histories of the core.
#![tactic(auto)]

mod answers;
pub mod histories;
pub mod laws;
pub mod statements;
