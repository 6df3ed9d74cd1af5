//! What the SQL commands of a conversation do: what each asks of the core, what it is answered, and what the
//! conversation then keeps (DRDA V5 volume 3: EXCSQLIMM, PRPSQLSTT, DSCSQLSTT, EXCSQLSTT, RDBCMM, RDBRLLBCK);
//! and so the calls of a transaction manager (SYNCCTL).
#![tactic(auto)]

mod attributes;
mod brought;
mod card;
mod command;
mod describing;
mod ending;
mod executing;
mod kept;
mod preparing;
mod replying;
mod request;
mod running;
mod sync_control;

pub use command::do_command;
pub use describing::describe;
pub use ending::end_unit;
pub use executing::execute;
pub use preparing::prepare;
pub use replying::MAX_REPLIES_LENGTH;
pub use running::execute_immediate;
pub use sync_control::{MAX_SYNC_REPLY_LENGTH, do_sync_control};
