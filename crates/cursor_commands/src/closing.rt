//! CLSQRY.

ghost use Rattle.std.specs.Prelude.{◌≡◌, ◌≤◌, ◌+◌, OnErr, OnOk, length};
ghost use Rattle.drda_commands.specs.Needs.{HasSection};
ghost use Rattle.drda_commands.specs.Views.{given_of};
ghost use Rattle.cursor_commands.specs.Commands as commands;
ghost use Rattle.cursor_commands.specs.Sizes.{message_length};
ghost use Rattle.command_kit.specs.Done.{IsAnswered};
ghost use Rattle.command_kit.specs.Sizes.{written_lengths};

use crate::replies::section_name;
use command_kit::{Card, Replies, Statements};
use drda_commands::Accepted;
use sections::QueryNotOpen;
use sqlam_replies::{MAX_MESSAGE_LENGTH, ReplyMessage};
use std::alloc::AllocError;

/// Closes the cursor of a section (CLSQRY), the one of QRYINSID where that comes: a null SQLCARD; or QRYNOPRM
/// where the section has no open cursor, or another one. `rdb` is the database's name as it is answered, of at
/// most 791 bytes. Out of memory, nothing changes.
pub fn close(
    accepted: Accepted<'_>,
    rdb: &[u8],
    statements: &mut Statements,
    replies: &mut Replies,
) -> Result<(), AllocError>
    requires rdb { length rdb.now ≤ 791 }
    requires section { HasSection (given_of accepted.given) }
    ensures ok { OnOk result (IsAnswered (commands.closed rdb.now statements.old (given_of accepted.entry.given)) statements.new replies.old.list replies.new.list) }
    ensures size { OnOk result (written_lengths replies.new.list ≤ written_lengths replies.old.list + message_length) }
    ensures statements { OnErr result (statements.new ≡ statements.old) }
    ensures replies { OnErr result (replies.new.list ≡ replies.old.list) }
{
    let name = section_name(&accepted);
    replies.reserve(1, MAX_MESSAGE_LENGTH)?;
    match statements.sections.close(name, accepted.query_instance()) {
        Ok(()) => replies.add(&Card::Null),
        Err(QueryNotOpen) => replies.add(&ReplyMessage::QueryNotOpen { rdb, section: name }),
    }
    Ok(())
}
