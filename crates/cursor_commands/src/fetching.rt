//! CNTQRY.

ghost use Rattle.std.specs.Prelude.{◌≡◌, ◌≤◌, ◌+◌, ◌++◌, ◌∷◌, [], OnErr, OnOk, length};
ghost use Rattle.drda_commands.specs.Needs.{HasSection};
ghost use Rattle.drda_commands.specs.Views.{given_of};
ghost use Rattle.cursor_commands.specs.Commands as commands;
ghost use Rattle.cursor_commands.specs.Replies as spec;
ghost use Rattle.cursor_commands.specs.Sizes as sizes;
ghost use Rattle.drda_commands.specs.Values.{block_size_in, query_instance_in};
ghost use Rattle.command_kit.specs.Done.{IsAnswered};
ghost use Rattle.command_kit.specs.Sizes.{written_lengths};
ghost use Rattle.sections.specs.Cursors.{meant_cursor};
ghost use Rattle.sections.specs.Room.{IsShort};

use crate::replies::{BlockRows, add_end, section_name};
use crate::room::block_text;
use command_kit::{Replies, Statements};
use drda_commands::Accepted;
use sections::Block;
use sqlam_replies::{MAX_MESSAGE_LENGTH, ReplyMessage};
use std::alloc::AllocError;

// Adds QRYDTA with the rows of a block, and the end of the query where no row remains.
fn add_block(block: &Block<'_>, replies: &mut Replies) -> Result<(), AllocError>
    requires within { block.now.start + block.now.count ≤ length block.now.rows.now.rows }
    requires short { IsShort block.now }
    ensures ok { OnOk result (replies.new.list ≡ replies.old.list ++ (spec.some_rows block.now.rows.now block.now.start block.now.count ∷ commands.ending block.now.is_last)) }
    ensures size { OnOk result (written_lengths replies.new.list ≤ written_lengths replies.old.list + sizes.block_length block.now.size) }
    ensures err { OnErr result (replies.new.list ≡ replies.old.list) }
{
    replies.reserve(3, block_text(block.size))?;
    replies.add(&BlockRows { block: *block });
    add_end(block.is_last, replies);
    Ok(())
}

// Adds QRYNOPRM.
fn refuse_fetch(rdb: &[u8], name: &[u8], replies: &mut Replies) -> Result<(), AllocError>
    requires rdb { length rdb.now ≤ 791 }
    requires name { length name.now ≤ 791 }
    ensures ok { OnOk result (replies.new.list ≡ replies.old.list ++ spec.query_not_open rdb.now name.now ∷ []) }
    ensures size { OnOk result (written_lengths replies.new.list ≤ written_lengths replies.old.list + sizes.message_length) }
    ensures err { OnErr result (replies.new.list ≡ replies.old.list) }
{
    replies.reserve(1, MAX_MESSAGE_LENGTH)?;
    replies.add(&ReplyMessage::QueryNotOpen { rdb, section: name });
    Ok(())
}

/// Sends the next block of a section's cursor (CNTQRY), of the one of QRYINSID where that comes: QRYDTA with as
/// many rows as fit QRYBLKSZ, or the size of the block before where that does not come, and at least one; behind
/// the last row ENDQRYRM and SQLCODE 100, and the cursor is closed. QRYNOPRM where the section has no open cursor,
/// or another one. `rdb` is the database's name as it is answered, of at most 791 bytes. Out of memory, nothing
/// changes.
pub fn fetch(
    accepted: Accepted<'_>,
    rdb: &[u8],
    statements: &mut Statements,
    replies: &mut Replies,
) -> Result<(), AllocError>
    requires rdb { length rdb.now ≤ 791 }
    requires section { HasSection (given_of accepted.given) }
    ensures ok { OnOk result (IsAnswered (commands.fetched rdb.now statements.old (given_of accepted.entry.given)) statements.new replies.old.list replies.new.list) }
    ensures size { OnOk result (written_lengths replies.new.list ≤ written_lengths replies.old.list + sizes.block_length (sizes.next_size (block_size_in (given_of accepted.entry.given)) (meant_cursor (commands.name_in (given_of accepted.entry.given)) (query_instance_in (given_of accepted.entry.given)) statements.old.sections))) }
    ensures statements { OnErr result (statements.new ≡ statements.old) }
    ensures replies { OnErr result (replies.new.list ≡ replies.old.list) }
{
    let name = section_name(&accepted);
    let Ok(block) = statements
        .sections
        .next_block(name, accepted.query_instance(), accepted.block_size())
    else {
        return refuse_fetch(rdb, name, replies);
    };
    add_block(&block, replies)?;
    let (count, size) = (block.count, block.size);
    statements.sections.advance(name, count, size);
    Ok(())
}
