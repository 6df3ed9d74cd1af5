//! What the commands of a conversation work on.

use crate::kept_cursors::KeptCursors;
use crate::told::Told;
use command_kit::{Replies, Statements};
use session_commands::Session;

/// What is remembered of a conversation, and room for its replies.
#[derive(Drop)]
pub(crate) struct State {
    pub session: Session,
    pub statements: Statements,
    pub replies: Replies,
    /// What its open cursors keep.
    pub cursors: KeptCursors,
    /// What was told of what it keeps.
    pub told: Told,
    /// How many checks of the user have failed.
    pub refused: u64,
}
