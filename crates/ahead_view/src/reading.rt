//! What is read ahead of a statement.

ghost use Rattle.std.specs.Prelude.{◌≡◌, IfOk, IsTrue, true};
ghost use Rattle.table_map.specs.Keyed.{copied};
ghost use Rattle.tables.specs.Tables.{Store, row_of, rows_of};
ghost use Rattle.ahead_view.specs.Ahead.{WasRead, are_read, is_row_read, may_be_read};
ghost use Rattle.ahead_view.specs.Given.{StandsFor, given_by};
ghost use Rattle.ahead_view.specs.Source.{IsReadBy, LeavesReader, MayRead};
ghost use Rattle.paged_tables.specs.PagedTables.{store_in};

use crate::judging::is_possible;
use crate::source::{ReadError, Source};
use paged_tables::{JudgedRows, PagedTables};
use std::alloc::{AllocError, Global};
use std::mem;
use table_map::JudgedRow;
use tables::Rows;

/// What a statement is going to ask for.
#[derive(Clone, Copy, Debug)]
pub enum Wanted<'a> {
    /// No rows.
    Nothing,
    /// The row of a key in a table.
    Row { table: &'a str, key: &'a [u8] },
    /// All rows of a table.
    Rows { table: &'a str },
}

/// What was read of the tables ahead of a statement.
#[derive(Drop)]
pub enum ReadAhead<'a> {
    /// Nothing: the statement reads no rows.
    Nothing,
    /// The row of a key in a table, or that there is none.
    Row {
        table: &'a str,
        key: &'a [u8],
        row: Option<Vec<u8>>,
    },
    /// All rows of a table, in the order of their keys.
    Rows {
        table: &'a str,
        rows: Rows,
    },
}

/// Reads what a statement is going to ask for, and judges it: rows that are none of their table count as a
/// failure of the device. Where nothing is asked for, neither the source nor memory is asked.
pub fn read_ahead<'a, S: Source>(
    source: &mut S,
    alloc: Global,
    tables: &PagedTables,
    wanted: Wanted<'a>,
) -> Result<ReadAhead<'a>, ReadError>
    requires { S.holds source.old tables.now.tables }
    ensures may { IfOk result (λ read. may_be_read (store_in tables.now) read ≡ true) }
    ensures stands { IfOk result (λ read. StandsFor S.is_told (given_by (store_in tables.now) read) (store_in tables.now)) }
    ensures read { IfOk result (λ read. IsReadBy S.reads read source.old source.new) }
    ensures source { LeavesReader (MayRead S.reads) S.fails_to_read source.old result source.new }
{
    // The tables are a store.
    let _count = tables.count();
    let Reading { read, is_judged } = read_unjudged(source, alloc, tables, wanted)?;
    if !is_possible(tables, &read, is_judged)? {
        source.fail();
        return Err(ReadError::DeviceFailed);
    }
    Ok(read)
}

// What was read, and whether it is known that it may be rows of the tables.
#[derive(Drop)]
struct Reading<'a> {
    read: ReadAhead<'a>,
    is_judged: bool,
}

// What a statement is going to ask for, as it is read.
fn read_unjudged<'a, S: Source>(
    source: &mut S,
    alloc: Global,
    tables: &PagedTables,
    wanted: Wanted<'a>,
) -> Result<Reading<'a>, ReadError>
    requires { S.holds source.old tables.now.tables }
    ensures told { IsTrue S.is_told → IfOk result (λ r. WasRead (store_in tables.now) r.read) }
    ensures judged { IfOk result (λ r. IsTrue r.is_judged → may_be_read (store_in tables.now) r.read ≡ true) }
    ensures read { IfOk result (λ r. IsReadBy S.reads r.read source.old source.new) }
    ensures source { LeavesReader (MayRead S.reads) S.fails_to_read source.old result source.new }
{
    match wanted {
        Wanted::Nothing => Ok(Reading {
            read: ReadAhead::Nothing,
            is_judged: true,
        }),
        Wanted::Row { table, key } => {
            let JudgedRow { row, is_judged } = source.row(alloc, tables, table, key)?;
            Ok(Reading {
                read: ReadAhead::Row { table, key, row },
                is_judged,
            })
        }
        Wanted::Rows { table } => {
            let JudgedRows { rows, are_judged } = source.rows(alloc, tables, table)?;
            Ok(Reading {
                read: ReadAhead::Rows { table, rows },
                is_judged: are_judged,
            })
        }
    }
}

/// The row of a key in a table, if it was read. It is given away.
pub(crate) fn take_row(
    read: &mut ReadAhead<'_>,
    table: &str,
    key: &[u8],
) -> Result<Option<Vec<u8>>, AllocError>
    ensures row { (store : Store) → WasRead store read.old → IfOk result (λ row. copied row ≡ row_of store table.now key.now) }
    ensures left { (store : Store) → WasRead store read.old → WasRead store read.new }
{
    if !has_row(read, table, key) {
        return Err(AllocError);
    }
    match mem::replace(read, ReadAhead::Nothing) {
        ReadAhead::Row {
            table: _,
            key: _,
            row,
        } => Ok(row),
        ReadAhead::Rows { .. } => Err(AllocError),
        ReadAhead::Nothing => Err(AllocError),
    }
}

// Whether the row of this key was read.
fn has_row(read: &ReadAhead<'_>, table: &str, key: &[u8]) -> bool
    ensures { result ≡ is_row_read table.now key.now read.now }
{
    match read {
        ReadAhead::Row {
            table: name,
            key: place,
            row: _,
        } => name.as_bytes() == table.as_bytes() && *place == key,
        ReadAhead::Rows { .. } => false,
        ReadAhead::Nothing => false,
    }
}

/// All rows of a table, if they were read. They are given away.
pub(crate) fn take_rows(read: &mut ReadAhead<'_>, table: &str) -> Result<Rows, AllocError>
    ensures rows { (store : Store) → WasRead store read.old → IfOk result (λ rows. rows ≡ rows_of store table.now) }
    ensures left { (store : Store) → WasRead store read.old → WasRead store read.new }
{
    if !has_rows(read, table) {
        return Err(AllocError);
    }
    match mem::replace(read, ReadAhead::Nothing) {
        ReadAhead::Rows { table: _, rows } => Ok(rows),
        ReadAhead::Row { .. } => Err(AllocError),
        ReadAhead::Nothing => Err(AllocError),
    }
}

// Whether all rows of this table were read.
fn has_rows(read: &ReadAhead<'_>, table: &str) -> bool
    ensures { result ≡ are_read table.now read.now }
{
    match read {
        ReadAhead::Rows {
            table: name,
            rows: _,
        } => name.as_bytes() == table.as_bytes(),
        ReadAhead::Row { .. } => false,
        ReadAhead::Nothing => false,
    }
}
