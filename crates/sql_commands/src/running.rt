//! EXCSQLIMM, and what runs the statement of EXCSQLSTT.

ghost use Rattle.std.specs.Prelude.{◌≡◌, ◌≤◌, ◌+◌, ◌++◌, ◌∷◌, [], IfOk, OnErr, OnOk, if◌then◌else◌, length, map};
ghost use Rattle.row_values.specs.Value.{value_of};
ghost use Rattle.drda_commands.specs.Views.{given_of};
ghost use Rattle.sql_commands.specs.Commands as commands;
ghost use Rattle.command_kit.specs.Done.{WasDone};
ghost use Rattle.command_kit.specs.Card.{card_reply};
ghost use Rattle.command_kit.specs.Reply.{fault_card, rdb_updated};
ghost use Rattle.command_kit.specs.Sizes.{written_lengths};
ghost use Rattle.command_kit.specs.Text.{statement_of};

use crate::brought::statement_text;
use crate::replying::MAX_REPLIES_LENGTH;
use command_kit::{Ask, Card, Replies, Statements, add_not_done, refuse, statement_of};
use core_calls::{Answer, CoreCall, SqlFault, StatementError};
use drda_commands::Accepted;
use row_values::Value;
use sql_text::{Command, Statement};
use sqlam_replies::{MAX_MESSAGE_LENGTH, ReplyMessage, SQLCARD_LENGTH};
use std::alloc::{AllocError, Global};

fn is_search(command: &Command<'_>) -> bool
    ensures { result ≡ commands.is_search command.now }
{
    match command {
        Command::Update { .. } | Command::Delete { .. } => true,
        Command::Create { .. } | Command::Insert { .. } | Command::Select { .. } => false,
    }
}

// Tells of a change by its SQLCARD, behind RDBUPDRM where none was told before.
fn tell(is_told: bool, rdb: &[u8], card: Card, replies: &mut Replies)
    requires rdb { length rdb.now ≤ 791 }
    requires text { MAX_MESSAGE_LENGTH + SQLCARD_LENGTH ≤ replies.old.text_room }
    requires count { 2 ≤ replies.old.count_room }
    ensures replies { replies.new.list ≡ replies.old.list ++ (if is_told then card_reply card ∷ [] else rdb_updated rdb.now ∷ card_reply card ∷ []) }
    ensures size { written_lengths replies.new.list ≤ written_lengths replies.old.list + MAX_REPLIES_LENGTH }
{
    if !is_told {
        replies.add(&ReplyMessage::RdbUpdated(rdb));
    }
    replies.add(&card);
}

// Runs a statement with these values for its markers; whether a change is told then.
pub(crate) fn run<A: Ask>(
    statement: &Statement<'_>,
    parameters: &[Value<'_>],
    rdb: &[u8],
    statements: &Statements,
    asker: &mut A,
    replies: &mut Replies,
) -> Result<bool, AllocError>
    requires { length rdb.now ≤ 791 }
    ensures ok { IfOk result (λ is_told. WasDone A.asks (commands.running rdb.now statements.now statement.now (map value_of parameters.now)) asker.old asker.new (commands.with_told is_told statements.now) replies.old.list replies.new.list) }
    ensures size { OnOk result (written_lengths replies.new.list ≤ written_lengths replies.old.list + MAX_REPLIES_LENGTH) }
    ensures asker { OnErr result (asker.new ≡ asker.old) }
    ensures replies { OnErr result (replies.new.list ≡ replies.old.list) }
{
    replies.reserve(2, MAX_MESSAGE_LENGTH + SQLCARD_LENGTH)?;
    let is_told = statements.is_change_told;
    let call = CoreCall::Run {
        statement,
        parameters,
    };
    match asker.ask(&call) {
        Answer::Count(count) => {
            let card = Card::Count {
                is_search: is_search(&statement.command),
                count,
            };
            tell(is_told, rdb, card, replies);
            Ok(true)
        }
        answer => {
            add_not_done(answer, replies);
            Ok(is_told)
        }
    }
}

// The SQLCARD of a fault; whether a change is told then.
pub(crate) fn refuse_run(
    fault: SqlFault,
    statements: &Statements,
    replies: &mut Replies,
) -> Result<bool, AllocError>
    ensures told { IfOk result (λ is_told. commands.with_told is_told statements.now ≡ statements.now) }
    ensures ok { OnOk result (replies.new.list ≡ replies.old.list ++ fault_card fault ∷ []) }
    ensures size { OnOk result (written_lengths replies.new.list ≤ written_lengths replies.old.list + MAX_REPLIES_LENGTH) }
    ensures err { OnErr result (replies.new.list ≡ replies.old.list) }
{
    refuse(fault, replies)?;
    Ok(statements.is_change_told)
}

fn run_text<A: Ask>(
    alloc: Global,
    text: &[u8],
    rdb: &[u8],
    statements: &Statements,
    asker: &mut A,
    replies: &mut Replies,
) -> Result<bool, AllocError>
    requires { length rdb.now ≤ 791 }
    ensures ok { IfOk result (λ is_told. WasDone A.asks (commands.immediate_by rdb.now statements.now (statement_of text.now)) asker.old asker.new (commands.with_told is_told statements.now) replies.old.list replies.new.list) }
    ensures size { OnOk result (written_lengths replies.new.list ≤ written_lengths replies.old.list + MAX_REPLIES_LENGTH) }
    ensures asker { OnErr result (asker.new ≡ asker.old) }
    ensures replies { OnErr result (replies.new.list ≡ replies.old.list) }
{
    match statement_of(alloc, text) {
        Ok(statement) => {
            let done = run(&statement, &[], rdb, statements, asker, replies);
            drop(statement);
            done
        }
        Err(StatementError::Fault(fault)) => refuse_run(fault, statements, replies),
        Err(StatementError::NoMemory) => Err(AllocError),
    }
}

/// Runs the statement that the command brings (EXCSQLIMM), which has no markers: RDBUPDRM where it is the
/// first change that is told, and the SQLCARD of the rows that it changed; or the SQLCARD of why it was
/// refused. `rdb` is the database's name as it is answered, of at most 791 bytes. Out of memory, nothing is
/// asked.
pub fn execute_immediate<A: Ask>(
    alloc: Global,
    accepted: Accepted<'_>,
    rdb: &[u8],
    statements: &mut Statements,
    asker: &mut A,
    replies: &mut Replies,
) -> Result<(), AllocError>
    requires { length rdb.now ≤ 791 }
    ensures ok { OnOk result (WasDone A.asks (commands.immediate rdb.now statements.old (given_of accepted.entry.given)) asker.old asker.new statements.new replies.old.list replies.new.list) }
    ensures size { OnOk result (written_lengths replies.new.list ≤ written_lengths replies.old.list + MAX_REPLIES_LENGTH) }
    ensures asker { OnErr result (asker.new ≡ asker.old) }
    ensures statements { OnErr result (statements.new ≡ statements.old) }
    ensures replies { OnErr result (replies.new.list ≡ replies.old.list) }
{
    let text = statement_text(&accepted);
    let is_told = run_text(alloc, text, rdb, statements, asker, replies)?;
    statements.is_change_told = is_told;
    Ok(())
}
