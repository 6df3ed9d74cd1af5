//! What the commands on cursors do: what each asks of the core, what it replies, and where the cursor then
//! stands (DRDA V5 volume 3: OPNQRY, CNTQRY, CLSQRY).
#![tactic(auto)]

mod closing;
mod command;
mod fetching;
pub mod laws;
mod opening;
mod query;
mod replies;
mod room;
mod sizes;

pub use closing::close;
pub use command::do_command;
pub use fetching::fetch;
pub use opening::open;
pub use sizes::most_length;
