//! What is replied where a call was not done.

ghost use Rattle.std.specs.Prelude.{◌≡◌, ◌≤◌, ◌+◌, ◌++◌, ◌∷◌, [], OnErr, OnOk};
ghost use Rattle.core_calls.specs.Answer.{answer_of};
ghost use Rattle.command_kit.specs.NotDone as spec;
ghost use Rattle.command_kit.specs.Reply.{fault_card};
ghost use Rattle.command_kit.specs.Sizes.{written_lengths};

use crate::card::Card;
use crate::replies::Replies;
use core_calls::{Answer, SqlFault};
use sqlam_replies::{MAX_MESSAGE_LENGTH, ReplyMessage, SQLCARD_LENGTH};
use std::alloc::AllocError;

/// Adds the reply to a call that was not done, or whose answer is another call's. There is room for a reply
/// message.
pub fn add_not_done(answer: Answer, replies: &mut Replies)
    requires text { MAX_MESSAGE_LENGTH ≤ replies.old.text_room }
    requires count { 1 ≤ replies.old.count_room }
    ensures list { replies.new.list ≡ replies.old.list ++ spec.refusal_reply (answer_of answer) ∷ [] }
    ensures size { written_lengths replies.new.list ≤ written_lengths replies.old.list + (6 + MAX_MESSAGE_LENGTH) }
{
    match answer {
        Answer::Refused(refusal) => replies.add(&Card::Fault(refusal.fault())),
        Answer::NoMemory | Answer::Full { .. } => replies.add(&ReplyMessage::ResourceLimit),
        _ => replies.add(&ReplyMessage::AgentFailed),
    }
}

/// The SQLCARD of a fault, and no other reply. Out of memory, nothing is added.
pub fn refuse(fault: SqlFault, replies: &mut Replies) -> Result<(), AllocError>
    ensures ok { OnOk result (replies.new.list ≡ replies.old.list ++ fault_card fault ∷ []) }
    ensures err { OnErr result (replies.new.list ≡ replies.old.list) }
    ensures size { OnOk result (written_lengths replies.new.list ≤ written_lengths replies.old.list + (6 + SQLCARD_LENGTH)) }
{
    replies.reserve(1, SQLCARD_LENGTH)?;
    replies.add(&Card::Fault(fault));
    Ok(())
}
