//! What stands beside the text of a reply.

use sqlam_replies::ReplyKind;

/// What stands beside the text of a reply.
#[derive(Clone, Copy)]
pub(crate) struct Head {
    pub(crate) kind: ReplyKind,
    pub(crate) severity: u16,
    /// How many bytes its text has.
    pub(crate) length: usize,
}
