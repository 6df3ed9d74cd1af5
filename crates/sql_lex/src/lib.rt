//! The tokens of an SQL text, cut one at a time as a parser asks for them.
#![tactic(auto)]

mod cursor;
mod cut;
pub mod laws;
mod part;
mod terminal;
mod token;

pub use cursor::Cursor;
pub use part::Part;
pub use terminal::Terminal;
pub use token::{Comparison, Token};
