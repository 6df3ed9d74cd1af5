//! PRPSQLSTT.

ghost use Rattle.std.specs.Prelude.{◌≡◌, ◌≤◌, ◌+◌, ◌++◌, ◌∷◌, [], None, OnErr, OnOk, Some, true};
ghost use Rattle.drda_commands.specs.Views.{given_of};
ghost use Rattle.command_kit.specs.Done.{WasDone};
ghost use Rattle.command_kit.specs.Reply.{null_card};
ghost use Rattle.command_kit.specs.Sizes.{written_lengths};
ghost use Rattle.command_kit.specs.Text.{statement_of};
ghost use Rattle.sql_commands.specs.Commands as commands;
ghost use Rattle.sql_commands.specs.Sent.{preparation_of};

use crate::attributes::is_held;
use crate::brought::{section_name, statement_text, wanted_side};
use crate::describing::describe_statement;
use crate::replying::MAX_REPLIES_LENGTH;
use command_kit::{Ask, Card, Replies, Statements, refuse, statement_of};
use core_calls::{MAX_PARAMETERS, Side, StatementError};
use drda_commands::Accepted;
use row_values::Column;
use sql_text::Statement;
use sqlam_replies::{MAX_SQLDARD_LENGTH, SQLCARD_LENGTH};
use std::alloc::{AllocError, Global};

/// What is to be prepared.
#[derive(Clone, Copy)]
pub(crate) struct Preparing<'a, 't> {
    name: &'a [u8],
    statement: &'a Statement<'t>,
    is_held: bool,
}

// Prepares a statement, of which nothing is to be told.
fn prepare_alone(
    preparing: Preparing<'_, '_>,
    statements: &mut Statements,
    replies: &mut Replies,
) -> Result<(), AllocError>
    ensures statements { OnOk result (statements.new ≡ commands.with_prepared statements.old (preparation_of preparing.entry)) }
    ensures replies { OnOk result (replies.new.list ≡ replies.old.list ++ null_card ∷ []) }
    ensures size { OnOk result (written_lengths replies.new.list ≤ written_lengths replies.old.list + MAX_REPLIES_LENGTH) }
    ensures kept_statements { OnErr result (statements.new ≡ statements.old) }
    ensures kept_replies { OnErr result (replies.new.list ≡ replies.old.list) }
{
    replies.reserve(1, SQLCARD_LENGTH)?;
    statements
        .sections
        .prepare(preparing.name, preparing.statement, preparing.is_held)?;
    replies.add(&Card::Null);
    Ok(())
}

// Prepares a statement and describes it, if that is not refused.
fn prepare_described<A: Ask>(
    alloc: Global,
    preparing: Preparing<'_, '_>,
    side: Side,
    unicode: bool,
    statements: &mut Statements,
    asker: &mut A,
    replies: &mut Replies,
) -> Result<(), AllocError>
    ensures ok { OnOk result (WasDone A.asks (commands.prepared_as unicode statements.old (preparation_of preparing.entry) (Some side)) asker.old asker.new statements.new replies.old.list replies.new.list) }
    ensures size { OnOk result (written_lengths replies.new.list ≤ written_lengths replies.old.list + MAX_REPLIES_LENGTH) }
    ensures asker { OnErr result (asker.new ≡ asker.old) }
    ensures statements { OnErr result (statements.new ≡ statements.old) }
    ensures replies { OnErr result (replies.new.list ≡ replies.old.list) }
{
    replies.reserve(1, MAX_SQLDARD_LENGTH)?;
    let columns: Vec<Column> = Vec::with_capacity(alloc, MAX_PARAMETERS)?;
    statements
        .sections
        .reserve_prepare(preparing.name, preparing.statement, preparing.is_held)?;
    let is_described = describe_statement(
        alloc,
        preparing.statement,
        side,
        unicode,
        columns,
        asker,
        replies,
    );
    if is_described {
        statements.sections.prepare_reserved();
    } else {
        statements.sections.drop_reserved();
    }
    Ok(())
}

fn prepare_statement<A: Ask>(
    alloc: Global,
    preparing: Preparing<'_, '_>,
    wanted: Option<Side>,
    unicode: bool,
    statements: &mut Statements,
    asker: &mut A,
    replies: &mut Replies,
) -> Result<(), AllocError>
    ensures ok { OnOk result (WasDone A.asks (commands.prepared_as unicode statements.old (preparation_of preparing.entry) wanted) asker.old asker.new statements.new replies.old.list replies.new.list) }
    ensures size { OnOk result (written_lengths replies.new.list ≤ written_lengths replies.old.list + MAX_REPLIES_LENGTH) }
    ensures asker { OnErr result (asker.new ≡ asker.old) }
    ensures statements { OnErr result (statements.new ≡ statements.old) }
    ensures replies { OnErr result (replies.new.list ≡ replies.old.list) }
{
    match wanted {
        None => prepare_alone(preparing, statements, replies),
        Some(side) => prepare_described(
            alloc, preparing, side, unicode, statements, asker, replies,
        ),
    }
}

fn prepare_text<A: Ask>(
    alloc: Global,
    name: &[u8],
    text: &[u8],
    is_held: bool,
    wanted: Option<Side>,
    unicode: bool,
    statements: &mut Statements,
    asker: &mut A,
    replies: &mut Replies,
) -> Result<(), AllocError>
    ensures ok { OnOk result (WasDone A.asks (commands.prepared_by unicode statements.old (λ s. record { name = name.now; statement = s; is_held = is_held }) wanted (statement_of text.now)) asker.old asker.new statements.new replies.old.list replies.new.list) }
    ensures size { OnOk result (written_lengths replies.new.list ≤ written_lengths replies.old.list + MAX_REPLIES_LENGTH) }
    ensures asker { OnErr result (asker.new ≡ asker.old) }
    ensures statements { OnErr result (statements.new ≡ statements.old) }
    ensures replies { OnErr result (replies.new.list ≡ replies.old.list) }
{
    match statement_of(alloc, text) {
        Ok(statement) => {
            let preparing = Preparing {
                name,
                statement: &statement,
                is_held,
            };
            let done = prepare_statement(
                alloc, preparing, wanted, unicode, statements, asker, replies,
            );
            drop(statement);
            done
        }
        Err(StatementError::Fault(fault)) => refuse(fault, replies),
        Err(StatementError::NoMemory) => Err(AllocError),
    }
}

/// Prepares the statement that the command brings in its section (PRPSQLSTT), WITH HOLD where SQLATTR says so.
/// The reply is a null SQLCARD, or with RTNSQLDA the SQLDARD of the statement's columns or parameters; or
/// why it was refused, and then the section is as it was. Names are answered as UTF-8 with `unicode`, else
/// in code page 500. Out of memory, nothing is asked and nothing changes.
pub fn prepare<A: Ask>(
    alloc: Global,
    accepted: Accepted<'_>,
    unicode: bool,
    statements: &mut Statements,
    asker: &mut A,
    replies: &mut Replies,
) -> Result<(), AllocError>
    ensures ok { OnOk result (WasDone A.asks (commands.preparing unicode statements.old (given_of accepted.entry.given)) asker.old asker.new statements.new replies.old.list replies.new.list) }
    ensures size { OnOk result (written_lengths replies.new.list ≤ written_lengths replies.old.list + MAX_REPLIES_LENGTH) }
    ensures asker { OnErr result (asker.new ≡ asker.old) }
    ensures statements { OnErr result (statements.new ≡ statements.old) }
    ensures replies { OnErr result (replies.new.list ≡ replies.old.list) }
{
    let name = section_name(&accepted);
    let text = statement_text(&accepted);
    let is_held = is_held(&accepted);
    let wanted = wanted_side(&accepted);
    prepare_text(
        alloc, name, text, is_held, wanted, unicode, statements, asker, replies,
    )
}
