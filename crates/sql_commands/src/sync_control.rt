//! SYNCCTL.

ghost use Rattle.std.specs.Prelude.{◌≡◌, ◌≤◌, ◌+◌, OnErr, OnOk, Some};
ghost use Rattle.std.specs.Result.{result_ok};
ghost use Rattle.core_calls.specs.Call as call;
ghost use Rattle.drda_commands.specs.Views.{given_of};
ghost use Rattle.command_kit.specs.Doing.{asking};
ghost use Rattle.command_kit.specs.Done.{WasDone};
ghost use Rattle.command_kit.specs.Sizes.{written_lengths};
ghost use Rattle.xa_calls.specs.declared.request.Request.TheVariants.{Recover};
ghost use Rattle.sql_commands.specs.SyncControl as spec;

use crate::card::{CodeCard, InDoubtCard, MAX_CARD_LENGTH};
use crate::kept::call_behind;
use crate::request::request_of;
use command_kit::{Ask, Replies, Statements, add_not_done};
use core_calls::{Answer, CoreCall};
use drda_commands::Accepted;
use sqlam_replies::MAX_MESSAGE_LENGTH;
use std::alloc::AllocError;
use xa_calls::{InvalidRequest, Request};

/// The most bytes that the reply to a SYNCCTL takes as a DSS.
pub const MAX_SYNC_REPLY_LENGTH: usize = 36_902;

// Asks which branches are in doubt.
fn recover<A: Ask>(
    statements: &Statements,
    asker: &mut A,
    replies: &mut Replies,
) -> Result<(), AllocError>
    ensures ok { OnOk result (WasDone A.asks (asking (call.xa (Some Recover)) (spec.after_recover statements.now)) asker.old asker.new statements.now replies.old.list replies.new.list) }
    ensures size { OnOk result (written_lengths replies.new.list ≤ written_lengths replies.old.list + MAX_SYNC_REPLY_LENGTH) }
    ensures asker { OnErr result (asker.new ≡ asker.old) }
    ensures replies { OnErr result (replies.new.list ≡ replies.old.list) }
{
    replies.reserve(1, MAX_CARD_LENGTH)?;
    match asker.ask(&CoreCall::Xa(Ok(Request::Recover))) {
        Answer::InDoubt(xids) => replies.add(&InDoubtCard { xids: &xids }),
        answer => add_not_done(answer, replies),
    }
    Ok(())
}

// Asks for any other call, or for one that is none.
fn call<A: Ask>(
    request: Result<Request, InvalidRequest>,
    statements: &mut Statements,
    asker: &mut A,
    replies: &mut Replies,
) -> Result<(), AllocError>
    ensures ok { OnOk result (WasDone A.asks (asking (call.xa (result_ok request)) (spec.after_call (result_ok request) statements.old)) asker.old asker.new statements.new replies.old.list replies.new.list) }
    ensures size { OnOk result (written_lengths replies.new.list ≤ written_lengths replies.old.list + MAX_SYNC_REPLY_LENGTH) }
    ensures asker { OnErr result (asker.new ≡ asker.old) }
    ensures statements { OnErr result (statements.new ≡ statements.old) }
    ensures replies { OnErr result (replies.new.list ≡ replies.old.list) }
{
    replies.reserve(1, MAX_MESSAGE_LENGTH)?;
    match asker.ask(&CoreCall::Xa(request)) {
        Answer::Xa(code) => {
            call_behind(&request, code, statements);
            replies.add(&CodeCard { code });
        }
        answer => add_not_done(answer, replies),
    }
    Ok(())
}

/// Does the call of the transaction manager that a SYNCCTL names (DRDA V5 volume 3, SYNCCTL): the core is asked
/// for it, also where it names none, and the reply is the SYNCCRD of its code, or of the branches in doubt.
/// A start and an end that are answered 0 begin the telling of changes anew, and such an end closes all
/// cursors. Out of memory, nothing is asked and nothing changes.
pub fn do_sync_control<A: Ask>(
    accepted: Accepted<'_>,
    statements: &mut Statements,
    asker: &mut A,
    replies: &mut Replies,
) -> Result<(), AllocError>
    ensures ok { OnOk result (WasDone A.asks (spec.doing (given_of accepted.entry.given) statements.old) asker.old asker.new statements.new replies.old.list replies.new.list) }
    ensures size { OnOk result (written_lengths replies.new.list ≤ written_lengths replies.old.list + MAX_SYNC_REPLY_LENGTH) }
    ensures asker { OnErr result (asker.new ≡ asker.old) }
    ensures statements { OnErr result (statements.new ≡ statements.old) }
    ensures replies { OnErr result (replies.new.list ≡ replies.old.list) }
{
    let request = request_of(&accepted);
    match request {
        Ok(Request::Recover) => recover(statements, asker, replies),
        request => call(request, statements, asker, replies),
    }
}
