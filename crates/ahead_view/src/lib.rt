//! Tables whose rows are on pages: who reads the rows, and what a statement sees of what was read ahead of it.
#![tactic(auto)]

mod given;
mod judging;
mod reading;
mod source;
mod view;

pub use reading::{ReadAhead, Wanted, read_ahead};
pub use source::{ReadError, Source};
pub use view::AheadView;
