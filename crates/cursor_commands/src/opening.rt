//! OPNQRY.

ghost use Rattle.std.specs.Prelude.{◌≡◌, ◌≤◌, ◌+◌, ◌++◌, ◌∷◌, ◌==◌, [], None, OnErr, OnOk, if◌then◌else◌, length, option_map, unwrap_or};
ghost use Rattle.core_calls.specs.Answer.{answer_of};
ghost use Rattle.drda_commands.specs.Needs.{HasSection};
ghost use Rattle.drda_commands.specs.Views.{described_of, given_of};
ghost use Rattle.cursor_commands.specs.Blocks.{rows_in_block};
ghost use Rattle.cursor_commands.specs.Commands as commands;
ghost use Rattle.cursor_commands.specs.Replies as spec;
ghost use Rattle.cursor_commands.specs.Room.{HasRoom, opening_text};
ghost use Rattle.cursor_commands.specs.Sizes as sizes;
ghost use Rattle.drda_commands.specs.Values.{block_size_in};
ghost use Rattle.command_kit.specs.Done.{IsAnswered, WasDone};
ghost use Rattle.command_kit.specs.Sizes.{written_lengths};
ghost use Rattle.sections.specs.Cursors.{opening_fault, section_of};
ghost use Rattle.sections.specs.Room.{IsShort};

use crate::query::ask_section;
use crate::replies::{BlockRows, RowsDescription, add_end, add_failed, section_name};
use crate::room::opening_text;
use command_kit::{Ask, Replies, Statements, add_not_done};
use core_calls::{Answer, SqlFault, StatementError};
use drda_commands::{Accepted, DescribedData};
use sections::{Block, OpenFault};
use sqlam_replies::{MAX_MESSAGE_LENGTH, ReplyMessage, SQLCARD_LENGTH};
use std::alloc::{AllocError, Global};
use tables::RowList;

// Adds the replies to a query that was opened, with its first block.
fn add_opened(instance: u64, block: &Block<'_>, replies: &mut Replies)
    requires room { HasRoom 5 (opening_text block.now.size) replies.old }
    requires short { IsShort block.now }
    requires within { block.now.start + block.now.count ≤ length block.now.rows.now.rows }
    ensures list { replies.new.list ≡ replies.old.list ++ (spec.query_opened block.now.is_held instance ∷ spec.rows_description block.now.rows.now ∷ (if block.now.count == 0 then [] else spec.some_rows block.now.rows.now block.now.start block.now.count ∷ []) ++ commands.ending block.now.is_last) }
    ensures size { written_lengths replies.new.list ≤ written_lengths replies.old.list + sizes.opening_length block.now.size }
{
    replies.add(&ReplyMessage::QueryOpened {
        is_held: block.is_held,
        instance,
    });
    replies.add(&RowsDescription { block: *block });
    if block.count > 0 {
        replies.add(&BlockRows { block: *block });
    }
    add_end(block.is_last, replies);
}

// Opens a cursor over these rows, and sends its first block.
fn open_cursor(
    name: &[u8],
    size: u32,
    rows: RowList,
    statements: &mut Statements,
    replies: &mut Replies,
)
    requires free { opening_fault name.now statements.old.sections ≡ None }
    requires room { HasRoom 5 (opening_text size) replies.old }
    ensures done { IsAnswered (commands.opened_with statements.old name.now size rows (rows_in_block rows 0 size)) statements.new replies.old.list replies.new.list }
    ensures size { written_lengths replies.new.list ≤ written_lengths replies.old.list + sizes.opening_length size }
{
    let instance = statements.sections.open_reserved(name, rows, size);
    let Ok(block) = statements.sections.next_block(name, None, None) else {
        unreachable!()
    };
    add_opened(instance, &block, replies);
    let count = block.count;
    statements.sections.advance(name, count, size);
}

// What a query's answer makes of the section.
fn conclude(
    rdb: &[u8],
    name: &[u8],
    size: u32,
    answer: Answer,
    statements: &mut Statements,
    replies: &mut Replies,
)
    requires free { opening_fault name.now statements.old.sections ≡ None }
    requires room { HasRoom 5 (opening_text size) replies.old }
    requires rdb { length rdb.now ≤ 791 }
    ensures done { IsAnswered (commands.after_query rdb.now statements.old name.now size (answer_of answer)) statements.new replies.old.list replies.new.list }
    ensures size { written_lengths replies.new.list ≤ written_lengths replies.old.list + sizes.opening_length size }
{
    match answer {
        Answer::Rows(rows) => open_cursor(name, size, rows, statements, replies),
        Answer::Refused(refusal) => add_failed(rdb, refusal.fault(), replies),
        answer => add_not_done(answer, replies),
    }
}

// Refuses to open a query.
fn refuse_open(rdb: &[u8], fault: SqlFault, replies: &mut Replies) -> Result<(), AllocError>
    requires rdb { length rdb.now ≤ 791 }
    ensures ok { OnOk result (replies.new.list ≡ replies.old.list ++ spec.open_failed rdb.now fault) }
    ensures size { OnOk result (written_lengths replies.new.list ≤ written_lengths replies.old.list + sizes.ending_length) }
    ensures err { OnErr result (replies.new.list ≡ replies.old.list) }
{
    replies.reserve(2, MAX_MESSAGE_LENGTH + SQLCARD_LENGTH)?;
    add_failed(rdb, fault, replies);
    Ok(())
}

// QRYPOPRM.
fn refuse_open_query(rdb: &[u8], name: &[u8], replies: &mut Replies) -> Result<(), AllocError>
    requires rdb { length rdb.now ≤ 791 }
    requires name { length name.now ≤ 791 }
    ensures ok { OnOk result (replies.new.list ≡ replies.old.list ++ spec.query_open rdb.now name.now ∷ []) }
    ensures size { OnOk result (written_lengths replies.new.list ≤ written_lengths replies.old.list + sizes.message_length) }
    ensures err { OnErr result (replies.new.list ≡ replies.old.list) }
{
    replies.reserve(1, MAX_MESSAGE_LENGTH)?;
    replies.add(&ReplyMessage::QueryOpen { rdb, section: name });
    Ok(())
}

// Opens the query of a section that has no open cursor.
fn open_section<A: Ask>(
    alloc: Global,
    rdb: &[u8],
    name: &[u8],
    size: u32,
    parameters: Option<DescribedData<'_>>,
    statements: &mut Statements,
    asker: &mut A,
    replies: &mut Replies,
) -> Result<(), AllocError>
    requires free { opening_fault name.now statements.old.sections ≡ None }
    requires rdb { length rdb.now ≤ 791 }
    ensures ok { OnOk result (WasDone A.asks (commands.asked rdb.now statements.old name.now size (commands.query_in (option_map described_of parameters.entry) (section_of name.now statements.old.sections))) asker.old asker.new statements.new replies.old.list replies.new.list) }
    ensures size { OnOk result (written_lengths replies.new.list ≤ written_lengths replies.old.list + sizes.opening_length size) }
    ensures asker { OnErr result (asker.new ≡ asker.old) }
    ensures statements { OnErr result (statements.new ≡ statements.old) }
    ensures replies { OnErr result (replies.new.list ≡ replies.old.list) }
{
    replies.reserve(5, opening_text(size))?;
    match ask_section(alloc, &statements.sections, name, parameters, asker) {
        Ok(answer) => conclude(rdb, name, size, answer, statements, replies),
        Err(StatementError::Fault(fault)) => add_failed(rdb, fault, replies),
        Err(StatementError::NoMemory) => return Err(AllocError),
    }
    Ok(())
}

/// Opens the query of a section (OPNQRY): OPNQRYRM, QRYDSC, QRYDTA with the first block where there are rows, and
/// ENDQRYRM and SQLCODE 100 where no row remains behind it. OPNQFLRM and the SQLCARD of why it was refused, -518
/// where the section has no statement, or one that is no SELECT, -313 where the values of its markers do not come
/// in the form that their description says; QRYPOPRM where the section's cursor is open. `rdb` is the database's
/// name as it is answered, of at most 791 bytes. Out of memory, nothing is asked.
pub fn open<A: Ask>(
    alloc: Global,
    accepted: Accepted<'_>,
    rdb: &[u8],
    statements: &mut Statements,
    asker: &mut A,
    replies: &mut Replies,
) -> Result<(), AllocError>
    requires rdb { length rdb.now ≤ 791 }
    requires section { HasSection (given_of accepted.given) }
    ensures ok { OnOk result (WasDone A.asks (commands.opening rdb.now statements.old (given_of accepted.entry.given)) asker.old asker.new statements.new replies.old.list replies.new.list) }
    ensures size { OnOk result (written_lengths replies.new.list ≤ written_lengths replies.old.list + sizes.opening_length (unwrap_or (block_size_in (given_of accepted.entry.given)) 0)) }
    ensures asker { OnErr result (asker.new ≡ asker.old) }
    ensures statements { OnErr result (statements.new ≡ statements.old) }
    ensures replies { OnErr result (replies.new.list ≡ replies.old.list) }
{
    let name = section_name(&accepted);
    let size = accepted.block_size().unwrap_or(0);
    match statements.sections.check_opening(name) {
        Ok(()) => open_section(
            alloc,
            rdb,
            name,
            size,
            accepted.described_data(),
            statements,
            asker,
            replies,
        ),
        Err(OpenFault::NotPrepared) => refuse_open(rdb, SqlFault::NotPrepared, replies),
        Err(OpenFault::QueryOpen) => refuse_open_query(rdb, name, replies),
        Err(OpenFault::NoInstance) => refuse_open(rdb, SqlFault::LimitReached, replies),
    }
}
