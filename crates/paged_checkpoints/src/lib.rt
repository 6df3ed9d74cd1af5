//! A checkpoint of tables over their pages: the pages of the active half are checked and the tables are
//! opened over them, without a row in memory; and all tables, with the changes since, are written into
//! the half that is not active, and the journal begins anew behind them.
#![tactic(auto)]

mod counting;
mod opening;
mod pages;
mod room;
mod table_pages;
mod writing;

pub use opening::open_checkpoint;
pub use writing::{Relaid, write_checkpoint};
