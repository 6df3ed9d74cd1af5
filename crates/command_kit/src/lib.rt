//! What the crates of SQL commands share: who is asked, the replies, what a conversation keeps for its
//! statements, and the statement that a text is.
#![tactic(auto)]

mod answer;
mod ask;
mod card;
mod description;
mod head;
pub mod laws;
mod message;
mod replies;
mod reply_list;
mod reply_text;
mod sizes;
mod statements;
mod text;
mod values;

pub use answer::{add_not_done, refuse};
pub use ask::Ask;
pub use card::Card;
pub use description::{ColumnDescription, SelectionDescription};
pub use replies::Replies;
pub use reply_list::{ReplyList, ReplyRef};
pub use reply_text::ReplyText;
pub use statements::Statements;
pub use text::{is_select, statement_of};
pub use values::read_values;
