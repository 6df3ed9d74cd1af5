//! Pages of rows: how a store's tables lie on the disk.
#![tactic(auto)]

mod builder;
mod cache;
mod judged;
mod judging;
mod kept;
pub mod laws;
mod laying;
mod memory;
mod page;
mod pager;
mod rows;

pub use builder::{PageBuilder, Pushed};
pub use cache::PageCache;
pub use judged::JudgedPage;
pub use judging::is_behind;
pub use kept::{KeptPage, PageFault, read_page};
pub use laying::PageCount;
pub use page::{Damaged, PageKind, PageRef};
pub use pager::Pager;
pub use rows::RowIter;
