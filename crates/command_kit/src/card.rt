//! SQLCARDs.

ghost use Rattle.std.specs.Prelude.{◌≡◌, ◌≤◌, ◌<◌, ◌+◌, ◌++◌, OnErr, OnOk, length, vec_capacity, vec_len};
ghost use Rattle.sqlam_replies.specs.Sqlcard.{sqlcard};
ghost use Rattle.command_kit.specs.Reply as spec;

use crate::reply_text::ReplyText;
use core_calls::SqlFault;
use sqlam_replies::{ReplyKind, null_sqlcard, sqlcard};
use std::alloc::AllocError;

/// An SQLCARD, of at most `SQLCARD_LENGTH` bytes.
#[derive(Clone, Copy)]
pub enum Card {
    /// Nothing is to be reported.
    Null,
    /// A statement was refused.
    Fault(SqlFault),
    /// A statement changed so many rows; of one that looks for the rows and found none, SQLCODE 100.
    Count { is_search: bool, count: u32 },
}

fn write_card(out: &mut Vec<u8>, code: i32, state: &[u8; 5], count: u32) -> Result<(), AllocError>
    ensures ok { OnOk result (out.new.items ≡ out.old.items ++ sqlcard code state.now count) }
    ensures short { length (sqlcard code state.now count) ≤ 65 }
    ensures full { OnErr result (vec_capacity out.old < vec_len out.old + 65) }
    ensures capacity { vec_capacity out.old ≤ vec_capacity out.new }
{
    sqlam_replies::laws::texts_have_lengths();
    sqlcard(out, code, state, count)
}

fn write_count(out: &mut Vec<u8>, is_search: bool, count: u32) -> Result<(), AllocError>
    ensures ok { OnOk result (out.new.items ≡ out.old.items ++ (spec.count_card is_search count).text) }
    ensures short { length (spec.count_card is_search count).text ≤ 65 }
    ensures full { OnErr result (vec_capacity out.old < vec_len out.old + 65) }
    ensures capacity { vec_capacity out.old ≤ vec_capacity out.new }
{
    if is_search && count == 0 {
        return write_card(out, 100, b"02000", 0);
    }
    write_card(out, 0, b"00000", count)
}

fn write_null(out: &mut Vec<u8>) -> Result<(), AllocError>
    ensures ok { OnOk result (out.new.items ≡ out.old.items ++ spec.null_card.text) }
    ensures short { length spec.null_card.text ≤ 65 }
    ensures full { OnErr result (vec_capacity out.old < vec_len out.old + 65) }
    ensures capacity { vec_capacity out.old ≤ vec_capacity out.new }
{
    sqlam_replies::laws::texts_have_lengths();
    null_sqlcard(out)
}

impl ReplyText for Card {
    ghost use Rattle.command_kit.specs.Card.{card_reply};

    ghost reply = { card_reply };

    ghost most = { λ _. 65 };

    ghost can_write = { λ _. Unit {0} };

    fn kind(&self) -> ReplyKind {
        ReplyKind::Object
    }

    fn severity(&self) -> u16 {
        0
    }

    fn write(&self, out: &mut Vec<u8>) -> Result<(), AllocError> {
        match self {
            Card::Null => write_null(out),
            Card::Fault(fault) => write_card(out, fault.code(), fault.state(), 0),
            Card::Count { is_search, count } => write_count(out, *is_search, *count),
        }
    }
}
