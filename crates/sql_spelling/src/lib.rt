//! Tables and rows as SQL texts, which `parse` reads as the statements that make them.
#![tactic(auto)]

mod column;
pub mod laws;
mod statement;
mod value;

pub use statement::{put_create, put_insert};
