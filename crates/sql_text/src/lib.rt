//! Statements of a small SQL, read from their text.
#![tactic(auto)]

mod check;
mod column;
mod draft;
mod error;
mod fault;
pub mod laws;
mod list;
mod number;
mod predicate;
mod statement;
mod sum;
mod text;
mod token;
mod tree;

pub use error::SqlError;
pub use text::parse;
pub use tree::{
    Addend, Assignment, ColumnType, Columns, Command, Definition, KeyColumn, Literal, Operation,
    Predicate, Statement, Sum, Term,
};
