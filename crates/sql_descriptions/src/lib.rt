//! Describes statements: the columns of their rows, and the types of their parameters.
#![tactic(auto)]

mod column;
mod description;
mod parameter;
mod predicate;
mod types;

pub use description::{Description, describe};
