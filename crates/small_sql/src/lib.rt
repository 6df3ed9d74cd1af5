//! Binds statements to the tables of a view, says what they claim, and runs them.
#![tactic(auto)]

mod answer;
mod binding;
mod bound;
mod claim;
mod creation;
mod description;
mod insertion;
mod key;
mod modification;
mod plan;
mod query;
mod read;
mod removal;
mod running;
mod scope;
mod subject;
mod task;

pub use answer::Answer;
pub use binding::bind;
pub use bound::Bound;
pub use claim::{absent_claims, claims};
pub use description::describe;
pub use running::run;
pub use subject::table_schema;
