//! RDBCMM and RDBRLLBCK.

ghost use Rattle.std.specs.Prelude.{◌≡◌, ◌≤◌, ◌+◌, OnErr, OnOk, length};
ghost use Rattle.core_calls.specs.Call.{call_of};
ghost use Rattle.sql_commands.specs.Commands as commands;
ghost use Rattle.command_kit.specs.Done.{WasDone};
ghost use Rattle.command_kit.specs.Sizes.{written_lengths};

use crate::replying::MAX_REPLIES_LENGTH;
use command_kit::{Ask, Card, Replies, Statements, add_not_done};
use core_calls::{Answer, CoreCall};
use sqlam_replies::{MAX_MESSAGE_LENGTH, ReplyMessage, SQLCARD_LENGTH, UnitEnd};
use std::alloc::AllocError;

fn keeps_held(end: UnitEnd) -> bool
    ensures { result ≡ commands.keeps_held end }
{
    match end {
        UnitEnd::Committed => true,
        UnitEnd::RolledBack => false,
    }
}

fn call_of(end: UnitEnd) -> CoreCall<'static, 'static, 'static>
    ensures { call_of result ≡ commands.end_call end }
{
    match end {
        UnitEnd::Committed => CoreCall::Commit,
        UnitEnd::RolledBack => CoreCall::RollBack,
    }
}

/// Ends the local unit (RDBCMM, RDBRLLBCK): ENDUOWRM and a null SQLCARD, and the cursors that are not held
/// are closed. In a global unit it is a violation, and nothing changes. `rdb` is the database's name as it is
/// answered, of at most 791 bytes. Out of memory, nothing is asked.
pub fn end_unit<A: Ask>(
    end: UnitEnd,
    rdb: &[u8],
    statements: &mut Statements,
    asker: &mut A,
    replies: &mut Replies,
) -> Result<(), AllocError>
    requires { length rdb.now ≤ 791 }
    ensures ok { OnOk result (WasDone A.asks (commands.ending rdb.now end statements.old) asker.old asker.new statements.new replies.old.list replies.new.list) }
    ensures size { OnOk result (written_lengths replies.new.list ≤ written_lengths replies.old.list + MAX_REPLIES_LENGTH) }
    ensures asker { OnErr result (asker.new ≡ asker.old) }
    ensures statements { OnErr result (statements.new ≡ statements.old) }
    ensures replies { OnErr result (replies.new.list ≡ replies.old.list) }
{
    replies.reserve(2, MAX_MESSAGE_LENGTH + SQLCARD_LENGTH)?;
    let answer = asker.ask(&call_of(end));
    match answer {
        Answer::Done => {
            statements.end_unit(keeps_held(end));
            replies.add(&ReplyMessage::UnitEnded(end));
            replies.add(&Card::Null);
        }
        Answer::InGlobal => replies.add(&ReplyMessage::CommandViolation(rdb)),
        answer => add_not_done(answer, replies),
    }
    Ok(())
}
