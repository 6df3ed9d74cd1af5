//! Reply messages as replies.

ghost use Rattle.std.specs.Prelude.{◌≡◌, true};
ghost use Rattle.sqlam_replies.specs.Message.{has_short_values, message_of};
ghost use Rattle.sqlam_replies.specs.Reply as texts;

use crate::reply_text::ReplyText;
use sqlam_replies::{ReplyKind, ReplyMessage, reply_message};
use std::alloc::AllocError;

/// Of at most `MAX_MESSAGE_LENGTH` bytes, where its names have at most 791.
impl<'a> ReplyText for ReplyMessage<'a> {
    ghost reply = { λ m. texts.message (message_of m) };

    ghost most = { λ _. 2395 };

    ghost can_write = { λ m. has_short_values m ≡ true };

    fn kind(&self) -> ReplyKind {
        ReplyKind::Message
    }

    fn severity(&self) -> u16 {
        ReplyMessage::severity(self)
    }

    fn write(&self, out: &mut Vec<u8>) -> Result<(), AllocError> {
        sqlam_replies::laws::texts_have_lengths();
        reply_message(out, *self)
    }
}
