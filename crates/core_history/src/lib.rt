//! A core with the history of what it was asked, which is one that a single thread could have made.
#![tactic(auto)]

mod acted;
mod acting;
mod ahead;
mod asking;
mod book;
mod calls;
mod chosen;
mod closing;
mod collecting;
mod count;
mod filling;
mod gathering;
mod lasting;
pub mod laws;
mod left;
mod listing;
mod numbering;
mod pass;
mod renewals;
mod wish;

pub use acted::Acted;
pub use asking::{has_run_behind, wished_by};
pub use book::Book;
pub use calls::CallList;
pub use count::Count;
pub use left::Left;
pub use numbering::PLACES;
pub use pass::Pass;
pub use wish::Wish;
