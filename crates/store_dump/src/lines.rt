//! Lines of SQL, written one after another.

ghost use Rattle.std.specs.Prelude.{◌≡◌, ◌<◌, OnOk, IfOk};
ghost use Rattle.store_dump.specs.Dump.{IsWritten, commit_text, last_commit, row_line, since_commit, table_line, unit_end};
ghost use Rattle.row_values.specs.RowView.{row_in, schema_in};

use crate::errors::DumpError;
use conversation::write_whole;
use row_values::{RowRef, Schema};
use sql_spelling::{put_create, put_insert};
use std::alloc::AllocError;
use std::io::Write;

/// The most rows of a unit: 256 rows are changes of less than 1,048,576 bytes, which is the most of a unit.
const ROWS_OF_A_UNIT: usize = 256;

const COMMIT: &[u8] = b"COMMIT;\n";

/// Writes bytes, or a front of them.
pub(crate) fn write<W: Write>(out: &mut W, bytes: &[u8]) -> Result<(), DumpError>
    ensures { IsWritten bytes.now result (W.contents out.old) (W.contents out.new) }
{
    match write_whole(out, bytes) {
        Ok(()) => Ok(()),
        Err(_) => Err(DumpError::NotWritten),
    }
}

/// The line of a table, in place of what stood in the buffer.
fn put_table_line(line: &mut Vec<u8>, name: &str, schema: &Schema) -> Result<(), AllocError>
    ensures { OnOk result (line.new.items ≡ table_line name.now schema.now) }
{
    line.clear();
    put_create(line, name, schema)?;
    line.extend_from_slice(b";\nCOMMIT;\n")?;
    Ok(())
}

/// Writes the CREATE TABLE of a table, and a COMMIT.
pub(crate) fn write_table<W: Write>(
    line: &mut Vec<u8>,
    name: &str,
    schema: &Schema,
    out: &mut W,
) -> Result<(), DumpError>
    ensures { IsWritten (table_line name.now schema.now) result (W.contents out.old) (W.contents out.new) }
{
    put_table_line(line, name, schema)?;
    write(out, line.as_slice())
}

/// The line of a row, in place of what stood in the buffer.
fn put_row_line(
    line: &mut Vec<u8>,
    name: &str,
    row: &RowRef<'_>,
    since: usize,
) -> Result<(), AllocError>
    requires { since < 256 }
    ensures { OnOk result (line.new.items ≡ row_line name.now (schema_in row.now) since (row_in row.now)) }
{
    line.clear();
    put_insert(line, name, row)?;
    line.extend_from_slice(b";\n")?;
    if since + 1 == ROWS_OF_A_UNIT {
        line.extend_from_slice(COMMIT)?;
    }
    Ok(())
}

/// How many rows stand behind the last COMMIT, with one more.
fn since_commit(since: usize) -> usize
    requires { since < 256 }
    ensures next { result ≡ since_commit since }
    ensures few { result < 256 }
{
    if since + 1 == ROWS_OF_A_UNIT {
        0
    } else {
        since + 1
    }
}

/// Writes the INSERT of a row, and the COMMIT that is due, and tells how many rows stand behind the last one.
pub(crate) fn write_row<W: Write>(
    line: &mut Vec<u8>,
    name: &str,
    schema: &Schema,
    row: &[u8],
    since: usize,
    out: &mut W,
) -> Result<usize, DumpError>
    requires { since < 256 }
    ensures line { IsWritten (row_line name.now schema.now since row.now) result (W.contents out.old) (W.contents out.new) }
    ensures next { IfOk result (λ n. n ≡ since_commit since) }
    ensures few { IfOk result (λ n. n < 256) }
{
    let Ok(row) = RowRef::parse(schema, row) else {
        return Err(DumpError::Damaged);
    };
    put_row_line(line, name, &row, since)?;
    write(out, line.as_slice())?;
    Ok(since_commit(since))
}

/// Writes the COMMIT behind the last row, where one is due.
pub(crate) fn write_last_commit<W: Write>(since: usize, out: &mut W) -> Result<(), DumpError>
    ensures { IsWritten (last_commit since) result (W.contents out.old) (W.contents out.new) }
{
    if since == 0 {
        return write(out, b"");
    }
    write(out, COMMIT)
}
