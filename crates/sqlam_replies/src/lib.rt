//! The texts of replies, objects of the DDM architecture (DRDA V5 volume 3): reply messages, SQLCARD,
//! SQLDARD, SYNCCRD, the description of an answer and its rows, and how many rows a block takes.
#![tactic(auto)]

mod in_place;
pub mod laws;
mod lengths;
mod message;
mod names;
mod reply_kind;
mod rows;
mod selected;
mod sqlca;
mod sqlda;
mod xa_answer;

pub use in_place::{resource_limit, syntax_message};
pub use lengths::{MAX_MESSAGE_LENGTH, MAX_SQLDARD_LENGTH, NULL_SQLCARD_LENGTH, SQLCARD_LENGTH};
pub use message::{ReplyMessage, UnitEnd, reply_message};
pub use reply_kind::ReplyKind;
pub use rows::{block, qrydsc, qrydta};
pub use selected::selected_sqldard;
pub use sqlca::{null_sqlcard, sqlcard};
pub use sqlda::{MAX_DESCRIBED, are_described, sqldard};
pub use xa_answer::{MAX_XIDS, synccrd, synccrd_with};
