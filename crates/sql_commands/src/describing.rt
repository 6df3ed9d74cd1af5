//! DSCSQLSTT, and what describes the statement of PRPSQLSTT.

ghost use Rattle.std.specs.Prelude.{◌≡◌, ◌≤◌, ◌+◌, [], OnErr, OnOk, if◌then◌else◌, length, map, true, vec_capacity};
ghost use Rattle.row_values.specs.Column.{column_of};
ghost use Rattle.drda_commands.specs.Views.{given_of};
ghost use Rattle.sql_commands.specs.Commands as commands;
ghost use Rattle.command_kit.specs.Done.{WasDone};
ghost use Rattle.command_kit.specs.Reply as spec;
ghost use Rattle.command_kit.specs.Sizes.{written_lengths};
ghost use Rattle.command_kit.specs.declared.statements.Statements as kept;
ghost use Rattle.sections.specs.Cursors.{section_of};

use crate::brought::{section_name, side_for};
use crate::replying::MAX_REPLIES_LENGTH;
use command_kit::{
    Ask, ColumnDescription, Replies, SelectionDescription, Statements, add_not_done, refuse,
};
use core_calls::{Answer, CoreCall, MAX_PARAMETERS, ParameterType, Side, SqlFault};
use drda_commands::Accepted;
use row_values::Column;
use sections::NotPrepared;
use sql_text::{Command, Statement};
use sqlam_replies::MAX_SQLDARD_LENGTH;
use std::alloc::{AllocError, Global};

fn is_create(command: &Command<'_>) -> bool
    ensures { result ≡ commands.is_create command.now }
{
    match command {
        Command::Create { .. } => true,
        Command::Insert { .. }
        | Command::Update { .. }
        | Command::Delete { .. }
        | Command::Select { .. } => false,
    }
}

fn parameter_column(alloc: Global, parameter: ParameterType) -> Column
    ensures { column_of result ≡ spec.parameter_column parameter }
{
    Column {
        name: String::new(alloc),
        kind: parameter.kind,
        is_nullable: true,
        length: parameter.limit,
    }
}

// The columns that parameters are described as, in a list of none that has room for them.
fn parameter_columns(alloc: Global, types: &[ParameterType], columns: Vec<Column>) -> Vec<Column>
    requires empty { columns.items ≡ [] }
    requires room { length types.now ≤ vec_capacity columns }
    ensures { map column_of result.items ≡ spec.parameter_columns types.now }
{
    let mut columns = columns;
    for i in 0..types.len() {
        match columns.push(parameter_column(alloc, types[i])) {
            Ok(()) => {}
            Err(_) => unreachable!(),
        }
    }
    columns
}

// Describes the columns or the parameters of a statement, by a list of no columns that has room for any; whether it
// was described. There is room for an SQLDARD.
pub(crate) fn describe_statement<A: Ask>(
    alloc: Global,
    statement: &Statement<'_>,
    side: Side,
    unicode: bool,
    columns: Vec<Column>,
    asker: &mut A,
    replies: &mut Replies,
) -> bool
    requires columns { columns.items ≡ [] }
    requires columns_room { MAX_PARAMETERS ≤ vec_capacity columns }
    requires text { MAX_SQLDARD_LENGTH ≤ replies.old.text_room }
    requires count { 1 ≤ replies.old.count_room }
    ensures done { (k prepared : kept.Statements) → WasDone A.asks (commands.describing unicode k prepared statement.now side) asker.old asker.new (if result then prepared else k) replies.old.list replies.new.list }
    ensures size { written_lengths replies.new.list ≤ written_lengths replies.old.list + MAX_REPLIES_LENGTH }
{
    if is_create(&statement.command) {
        replies.add(&ColumnDescription {
            unicode,
            columns: &[],
        });
        return true;
    }
    match asker.ask(&CoreCall::Describe { statement, side }) {
        Answer::Output(selection) => {
            replies.add(&SelectionDescription {
                unicode,
                columns: &selection,
            });
            true
        }
        Answer::Input(types) => {
            let columns = parameter_columns(alloc, types.as_slice(), columns);
            replies.add(&ColumnDescription {
                unicode,
                columns: &columns,
            });
            true
        }
        answer => {
            add_not_done(answer, replies);
            false
        }
    }
}

fn describe_prepared<A: Ask>(
    alloc: Global,
    statement: &Statement<'_>,
    side: Side,
    unicode: bool,
    statements: &Statements,
    asker: &mut A,
    replies: &mut Replies,
) -> Result<(), AllocError>
    ensures ok { OnOk result (WasDone A.asks (commands.describing unicode statements.now statements.now statement.now side) asker.old asker.new statements.now replies.old.list replies.new.list) }
    ensures size { OnOk result (written_lengths replies.new.list ≤ written_lengths replies.old.list + MAX_REPLIES_LENGTH) }
    ensures asker { OnErr result (asker.new ≡ asker.old) }
    ensures replies { OnErr result (replies.new.list ≡ replies.old.list) }
{
    replies.reserve(1, MAX_SQLDARD_LENGTH)?;
    let columns: Vec<Column> = Vec::with_capacity(alloc, MAX_PARAMETERS)?;
    describe_statement(alloc, statement, side, unicode, columns, asker, replies);
    Ok(())
}

fn describe_section<A: Ask>(
    alloc: Global,
    name: &[u8],
    side: Side,
    unicode: bool,
    statements: &Statements,
    asker: &mut A,
    replies: &mut Replies,
) -> Result<(), AllocError>
    ensures ok { OnOk result (WasDone A.asks (commands.described_in unicode statements.now side (section_of name.now statements.now.sections)) asker.old asker.new statements.now replies.old.list replies.new.list) }
    ensures size { OnOk result (written_lengths replies.new.list ≤ written_lengths replies.old.list + MAX_REPLIES_LENGTH) }
    ensures asker { OnErr result (asker.new ≡ asker.old) }
    ensures replies { OnErr result (replies.new.list ≡ replies.old.list) }
{
    match statements.sections.statement(name) {
        Ok(statement) => {
            describe_prepared(alloc, statement, side, unicode, statements, asker, replies)
        }
        Err(NotPrepared) => refuse(SqlFault::NotPrepared, replies),
    }
}

/// Describes the statement of a section (DSCSQLSTT), its columns or its parameters: an SQLDARD, which has no
/// columns for a CREATE TABLE; or the SQLCARD of why it was refused, -518 where the section has no statement.
/// Names are answered as UTF-8 with `unicode`, else in code page 500. Out of memory, nothing is asked.
pub fn describe<A: Ask>(
    alloc: Global,
    accepted: Accepted<'_>,
    unicode: bool,
    statements: &Statements,
    asker: &mut A,
    replies: &mut Replies,
) -> Result<(), AllocError>
    ensures ok { OnOk result (WasDone A.asks (commands.describing_section unicode statements.now (given_of accepted.entry.given)) asker.old asker.new statements.now replies.old.list replies.new.list) }
    ensures size { OnOk result (written_lengths replies.new.list ≤ written_lengths replies.old.list + MAX_REPLIES_LENGTH) }
    ensures asker { OnErr result (asker.new ≡ asker.old) }
    ensures replies { OnErr result (replies.new.list ≡ replies.old.list) }
{
    let name = section_name(&accepted);
    let side = side_for(accepted.side());
    describe_section(alloc, name, side, unicode, statements, asker, replies)
}
