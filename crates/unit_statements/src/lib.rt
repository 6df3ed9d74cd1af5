//! What a statement of a unit comes to over the committed tables.
#![tactic(auto)]

mod asking;
mod base;
mod finding;
mod question;
mod reply;
mod sight;
mod wanted;

pub use base::Base;
pub use question::{Question, QuestionKind, unfit, unfit_to_describe};
