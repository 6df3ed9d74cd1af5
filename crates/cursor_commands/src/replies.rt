//! Replies of commands on cursors.

ghost use Rattle.std.specs.Prelude.{◌≡◌, ◌≤◌, ◌+◌, ◌++◌, length, max};
ghost use Rattle.drda_commands.specs.Needs.{HasSection};
ghost use Rattle.drda_commands.specs.Views.{given_of};
ghost use Rattle.command_kit.specs.Sizes.{written_lengths};
ghost use Rattle.cursor_commands.specs.Commands.{ending, name_in};
ghost use Rattle.cursor_commands.specs.Replies as spec;
ghost use Rattle.cursor_commands.specs.Room.{HasRoom, ending_text};
ghost use Rattle.cursor_commands.specs.Sizes.{ending_length};
ghost use Rattle.sections.specs.Room.{IsShort};

use command_kit::{Card, Replies, ReplyText};
use core_calls::SqlFault;
use drda_commands::Accepted;
use sections::Block;
use sqlam_replies::{ReplyKind, ReplyMessage, qrydsc, qrydta};
use std::alloc::AllocError;

/// The name of the section that is meant, of which a command that is accepted has one.
pub fn section_name<'a>(accepted: &Accepted<'a>) -> &'a [u8]
    ensures name { result.now ≡ name_in (given_of accepted.now.given) }
    ensures short { HasSection (given_of accepted.now.given) → length result.now ≤ 791 }
{
    match accepted.section() {
        Some(name) => name,
        None => &[],
    }
}

/// QRYDSC with the description of a block's rows, of at most `MAX_QRYDSC_LENGTH` bytes.
#[derive(Clone, Copy)]
pub struct RowsDescription<'a> {
    pub block: Block<'a>,
}

impl<'a> ReplyText for RowsDescription<'a> {
    ghost reply = { λ d. spec.rows_description d.block.rows.now };

    ghost most = { λ _. 222 };

    ghost can_write = { λ d. IsShort d.block };

    fn kind(&self) -> ReplyKind {
        ReplyKind::Object
    }

    fn severity(&self) -> u16 {
        0
    }

    fn write(&self, out: &mut Vec<u8>) -> Result<(), AllocError> {
        qrydsc(out, self.block.rows)
    }
}

/// QRYDTA with the rows of a block, `MAX_QRYDTA_HEADING` bytes more than its size or than `MAX_ANSWER_ROW_LENGTH`
/// at most.
#[derive(Clone, Copy)]
pub struct BlockRows<'a> {
    pub block: Block<'a>,
}

impl<'a> ReplyText for BlockRows<'a> {
    ghost reply = { λ r. spec.some_rows r.block.rows.now r.block.start r.block.count };

    ghost most = { λ r. max r.block.size 128194 + 12 };

    ghost can_write = { λ r. (r.block.start + r.block.count ≤ length r.block.rows.now.rows) × IsShort r.block };

    fn kind(&self) -> ReplyKind {
        ReplyKind::Object
    }

    fn severity(&self) -> u16 {
        0
    }

    fn write(&self, out: &mut Vec<u8>) -> Result<(), AllocError> {
        let block = self.block;
        qrydta(out, block.rows, block.start, block.count)
    }
}

/// Adds OPNQFLRM and the SQLCARD of why.
pub fn add_failed(rdb: &[u8], fault: SqlFault, replies: &mut Replies)
    requires rdb { length rdb.now ≤ 791 }
    requires room { HasRoom 2 ending_text replies.old }
    ensures list { replies.new.list ≡ replies.old.list ++ spec.open_failed rdb.now fault }
    ensures size { written_lengths replies.new.list ≤ written_lengths replies.old.list + ending_length }
{
    replies.add(&ReplyMessage::OpenFailed(rdb));
    replies.add(&Card::Fault(fault));
}

/// Adds ENDQRYRM and the SQLCARD of no further row, where the last row is sent.
pub fn add_end(is_last: bool, replies: &mut Replies)
    requires room { HasRoom 2 ending_text replies.old }
    ensures list { replies.new.list ≡ replies.old.list ++ ending is_last }
    ensures size { written_lengths replies.new.list ≤ written_lengths replies.old.list + ending_length }
{
    if is_last {
        replies.add(&ReplyMessage::EndOfQuery);
        replies.add(&Card::Count {
            is_search: true,
            count: 0,
        });
    }
}
