//! The committed tables, copied as plain lists.

ghost use Rattle.std.specs.Prelude.{◌≡◌, IfOk, IsTrue, OnOk, true};
ghost use Rattle.row_values.specs.Schema.{is_name};
ghost use Rattle.tables.specs.Change.{put};
ghost use Rattle.tables.specs.Tables.{apply};
ghost use Rattle.ahead_view.specs.Source.{LeavesReader};
ghost use Rattle.paged_tables.specs.PagedTables.{store_in};
ghost use Rattle.rdb_core.specs.Copied.{FailsOn, ReadsOn, with_rows, with_table_of};

use ahead_view::{ReadError, Source};
use paged_tables::{JudgedRows, PagedTables};
use row_values::{MAX_ROW_BYTES, Schema};
use std::alloc::{AllocError, Global};
use tables::{Change, PlainView, Rows};

/// A copy of the committed tables: all rows of each are read, one table after another. Bytes that are too many for a
/// row, which no source gives that is told, are answered by want of memory.
pub(crate) fn copied_tables<S: Source>(
    source: &mut S,
    alloc: Global,
    tables: &PagedTables,
) -> Result<PlainView, ReadError>
    requires { S.holds source.old tables.now.tables }
    ensures told { IsTrue S.is_told → IfOk result (λ view. view ≡ store_in tables.now) }
    ensures source { LeavesReader (ReadsOn S.reads) (FailsOn S.reads S.fails_to_read) source.old result source.new }
{
    let mut view = PlainView::new(alloc);
    let mut left = tables.lend();
    while let Some(table) = left.next_table() {
        let JudgedRows {
            rows,
            are_judged: _,
        } = source.rows(alloc, tables, table.name)?;
        add_table(&mut view, alloc, table.name, table.schema, &rows)?;
    }
    Ok(view)
}

// Adds a table of this name, with this schema and these rows.
fn add_table(
    view: &mut PlainView,
    alloc: Global,
    name: &str,
    schema: &Schema,
    rows: &Rows,
) -> Result<(), AllocError>
    requires { is_name name.now ≡ true }
    ensures { OnOk result (view.new ≡ with_table_of name.now schema.now rows.now view.old) }
{
    let created = Change::create(String::from_str(alloc, name)?, schema.copy(alloc)?);
    view.apply(alloc, created)?;
    add_rows(view, alloc, name, rows)
}

// Puts rows into the table of this name: the last one first, so that each has its place in front of those
// that are there.
fn add_rows(view: &mut PlainView, alloc: Global, name: &str, rows: &Rows) -> Result<(), AllocError>
    requires { is_name name.now ≡ true }
    ensures { OnOk result (view.new ≡ with_rows name.now rows.now view.old) }
{
    let mut left = rows.len();
    while left > 0 {
        left -= 1;
        add_row(view, alloc, name, rows.row(left))?;
    }
    Ok(())
}

// Puts a row into the table of this name.
fn add_row(view: &mut PlainView, alloc: Global, name: &str, row: &[u8]) -> Result<(), AllocError>
    requires { is_name name.now ≡ true }
    ensures { OnOk result (view.new ≡ apply (put name.now row.now) view.old) }
{
    if row.len() > MAX_ROW_BYTES {
        return Err(AllocError);
    }
    let table = String::from_str(alloc, name)?;
    let row = Vec::from_slice(alloc, row)?;
    view.apply(alloc, Change::put(table, row))
}
