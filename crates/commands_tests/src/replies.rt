//! The list of replies.

use command_kit::{Card, Replies, ReplyList, ReplyRef};
use core_calls::SqlFault;
use ddm_objects::CodePoint;
use sqlam_replies::{MAX_MESSAGE_LENGTH, ReplyKind, ReplyMessage, SQLCARD_LENGTH};
use std::alloc::AllocError;

fn tell_bytes(bytes: &[u8], told: &mut String) -> Result<(), AllocError> {
    for byte in bytes {
        write!(told, "{byte:02X}")?;
    }
    Ok(())
}

// Its code point, of QRYDTA its length, of an SQLCARD its SQLCODE, and of what is of no database all its bytes.
fn tell_text(text: &[u8], told: &mut String) -> Result<(), AllocError> {
    match text {
        [high, low, 0x24, 0x1B, ..] => {
            let length = u16::from_be_bytes([*high, *low]);
            write!(told, "QRYDTA {length}")
        }
        [_, _, 0x24, low, 0x00, a, b, c, d, ..] => {
            let point = CodePoint(u16::from_be_bytes([0x24, *low]));
            let code = i32::from_be_bytes([*a, *b, *c, *d]);
            write!(told, "{point} {code}")
        }
        [_, _, 0x12, ..] => tell_bytes(text, told),
        [_, _, high, low, ..] => {
            let point = CodePoint(u16::from_be_bytes([*high, *low]));
            write!(told, "{point}")
        }
        _ => told.push_str("nothing"),
    }
}

fn tell_reply(reply: &ReplyRef<'_>, told: &mut String) -> Result<(), AllocError> {
    let kind = if reply.kind == ReplyKind::Message {
        "message"
    } else {
        "object"
    };
    let severity = reply.severity;
    write!(told, "; {kind} of {severity} ")?;
    tell_text(reply.text, told)
}

/// Tells each reply: its kind, its severity, and what it says.
pub fn tell_replies(replies: ReplyList<'_>, told: &mut String) -> Result<(), AllocError> {
    let mut left = replies;
    for _ in 0..100_u32 {
        let Some((reply, others)) = left.split_first() else {
            return Ok(());
        };
        tell_reply(&reply, told)?;
        left = others;
    }
    Ok(())
}

fn add_card(replies: &mut Replies, card: Card) -> Result<(), AllocError> {
    replies.reserve(1, SQLCARD_LENGTH)?;
    replies.add(&card);
    Ok(())
}

fn add_update(replies: &mut Replies) -> Result<(), AllocError> {
    replies.reserve(1, 300_000)?;
    replies.add(&ReplyMessage::RdbUpdated(b"DRDADB"));
    Ok(())
}

fn add_limit_and_null(replies: &mut Replies) -> Result<(), AllocError> {
    replies.reserve(2, MAX_MESSAGE_LENGTH + SQLCARD_LENGTH)?;
    replies.add(&ReplyMessage::ResourceLimit);
    replies.add(&Card::Null);
    Ok(())
}

/// Adds what a verb names: SQLCODE -104, a null SQLCARD, RDBUPDRM, or RSCLMTRM and a null SQLCARD.
pub fn add(replies: &mut Replies, verb: &str) -> Result<(), AllocError> {
    match verb {
        "add-fault" => add_card(replies, Card::Fault(SqlFault::Syntax)),
        "add-null" => add_card(replies, Card::Null),
        "add-update" => add_update(replies),
        _ => add_limit_and_null(replies),
    }
}

/// Tells whether room for too many bytes and for too many replies is refused.
pub fn tell_refused_room(replies: &mut Replies, told: &mut String) -> Result<(), AllocError> {
    let of_bytes = replies.reserve(1, usize::MAX).is_err();
    let of_replies = replies.reserve(usize::MAX, 1).is_err();
    write!(told, "refused {of_bytes} and {of_replies}")
}
