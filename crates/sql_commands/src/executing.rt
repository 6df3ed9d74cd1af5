//! EXCSQLSTT.

ghost use Rattle.std.specs.Prelude.{◌≡◌, ◌≤◌, ◌+◌, IfOk, None, OnErr, OnOk, Some, length, option_map, true};
ghost use Rattle.drda_commands.specs.Views.{described_of, given_of};
ghost use Rattle.sections.specs.Cursors.{section_of};
ghost use Rattle.sql_commands.specs.Commands as commands;
ghost use Rattle.command_kit.specs.Done.{WasDone};
ghost use Rattle.command_kit.specs.Sizes.{written_lengths};
ghost use Rattle.command_kit.specs.Text.{values_of};

use crate::brought::section_name;
use crate::replying::MAX_REPLIES_LENGTH;
use crate::running::{refuse_run, run};
use command_kit::{Ask, Replies, Statements, is_select, read_values};
use core_calls::SqlFault;
use drda_commands::{Accepted, DescribedData};
use fdoca::DescriptorFault;
use sections::NotPrepared;
use sql_text::Statement;
use std::alloc::{AllocError, Global};

// Runs a statement with the values that a descriptor and a row give.
fn execute_with<A: Ask>(
    alloc: Global,
    statement: &Statement<'_>,
    sent: DescribedData<'_>,
    rdb: &[u8],
    statements: &Statements,
    asker: &mut A,
    replies: &mut Replies,
) -> Result<bool, AllocError>
    requires { length rdb.now ≤ 791 }
    ensures ok { IfOk result (λ is_told. WasDone A.asks (commands.executed_with rdb.now statements.now statement.now (values_of (Some (described_of sent.entry)))) asker.old asker.new (commands.with_told is_told statements.now) replies.old.list replies.new.list) }
    ensures size { OnOk result (written_lengths replies.new.list ≤ written_lengths replies.old.list + MAX_REPLIES_LENGTH) }
    ensures asker { OnErr result (asker.new ≡ asker.old) }
    ensures replies { OnErr result (replies.new.list ≡ replies.old.list) }
{
    let (Some(description), Some(row)) = (sent.description, sent.values) else {
        return refuse_run(SqlFault::ParameterMismatch, statements, replies);
    };
    match read_values(alloc, description, row) {
        Ok(values) => run(
            statement,
            values.as_slice(),
            rdb,
            statements,
            asker,
            replies,
        ),
        Err(DescriptorFault::NoMemory) => Err(AllocError),
        Err(DescriptorFault::Malformed | DescriptorFault::TooManyFields) => {
            refuse_run(SqlFault::ParameterMismatch, statements, replies)
        }
    }
}

fn execute_statement<A: Ask>(
    alloc: Global,
    statement: &Statement<'_>,
    sent: Option<DescribedData<'_>>,
    rdb: &[u8],
    statements: &Statements,
    asker: &mut A,
    replies: &mut Replies,
) -> Result<bool, AllocError>
    requires { length rdb.now ≤ 791 }
    ensures ok { IfOk result (λ is_told. WasDone A.asks (commands.executed_as rdb.now statements.now (option_map described_of sent.entry) statement.now) asker.old asker.new (commands.with_told is_told statements.now) replies.old.list replies.new.list) }
    ensures size { OnOk result (written_lengths replies.new.list ≤ written_lengths replies.old.list + MAX_REPLIES_LENGTH) }
    ensures asker { OnErr result (asker.new ≡ asker.old) }
    ensures replies { OnErr result (replies.new.list ≡ replies.old.list) }
{
    if is_select(&statement.command) {
        return refuse_run(SqlFault::NotPrepared, statements, replies);
    }
    match sent {
        None => run(statement, &[], rdb, statements, asker, replies),
        Some(sent) => execute_with(alloc, statement, sent, rdb, statements, asker, replies),
    }
}

fn execute_section<A: Ask>(
    alloc: Global,
    name: &[u8],
    sent: Option<DescribedData<'_>>,
    rdb: &[u8],
    statements: &Statements,
    asker: &mut A,
    replies: &mut Replies,
) -> Result<bool, AllocError>
    requires { length rdb.now ≤ 791 }
    ensures ok { IfOk result (λ is_told. WasDone A.asks (commands.executed_in rdb.now statements.now (option_map described_of sent.entry) (section_of name.now statements.now.sections)) asker.old asker.new (commands.with_told is_told statements.now) replies.old.list replies.new.list) }
    ensures size { OnOk result (written_lengths replies.new.list ≤ written_lengths replies.old.list + MAX_REPLIES_LENGTH) }
    ensures asker { OnErr result (asker.new ≡ asker.old) }
    ensures replies { OnErr result (replies.new.list ≡ replies.old.list) }
{
    match statements.sections.statement(name) {
        Ok(statement) => execute_statement(alloc, statement, sent, rdb, statements, asker, replies),
        Err(NotPrepared) => refuse_run(SqlFault::NotPrepared, statements, replies),
    }
}

/// Runs the statement of a section (EXCSQLSTT), which is no SELECT, with the values that the command
/// brings for its markers: RDBUPDRM where it is the first change that is told, and the SQLCARD of the
/// rows that it changed; or the SQLCARD of why it was refused. -518 where the section has no statement
/// or a SELECT comes before -313, where SQLDTA gives no values. `rdb` is the database's name as it is
/// answered, of at most 791 bytes. Out of memory, nothing is asked.
pub fn execute<A: Ask>(
    alloc: Global,
    accepted: Accepted<'_>,
    rdb: &[u8],
    statements: &mut Statements,
    asker: &mut A,
    replies: &mut Replies,
) -> Result<(), AllocError>
    requires { length rdb.now ≤ 791 }
    ensures ok { OnOk result (WasDone A.asks (commands.executed rdb.now statements.old (given_of accepted.entry.given)) asker.old asker.new statements.new replies.old.list replies.new.list) }
    ensures size { OnOk result (written_lengths replies.new.list ≤ written_lengths replies.old.list + MAX_REPLIES_LENGTH) }
    ensures asker { OnErr result (asker.new ≡ asker.old) }
    ensures statements { OnErr result (statements.new ≡ statements.old) }
    ensures replies { OnErr result (replies.new.list ≡ replies.old.list) }
{
    let name = section_name(&accepted);
    let sent = accepted.described_data();
    let is_told = execute_section(alloc, name, sent, rdb, statements, asker, replies)?;
    statements.is_change_told = is_told;
    Ok(())
}
