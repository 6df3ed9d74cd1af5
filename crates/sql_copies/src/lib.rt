//! Statements in memory of their own, which outlive the texts that they were read from.
#![tactic(auto)]

mod columns;
mod predicate;
mod statement;
mod value;

pub use statement::copy_statement;
