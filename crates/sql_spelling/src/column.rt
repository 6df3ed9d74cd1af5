//! Columns as definitions.

ghost use Rattle.std.specs.Prelude.{◌≡◌, ◌++◌, OnOk};
ghost use Rattle.row_values.specs.Column.{column_of};
ghost use Rattle.sql_spelling.specs.Text.{column_text, length_text, null_text, type_text};

use itoa::Buffer;
use row_values::{Column, Kind};
use std::alloc::AllocError;

/// Appends a length in parentheses.
fn put_length(out: &mut Vec<u8>, length: u16) -> Result<(), AllocError>
    ensures { OnOk result (out.new.items ≡ out.old.items ++ length_text length) }
{
    let mut buffer = Buffer::new();
    out.extend_from_slice(b"(")?;
    out.extend_from_slice(buffer.format(length).as_bytes())?;
    out.extend_from_slice(b")")
}

/// Appends the type of a column.
fn put_type(out: &mut Vec<u8>, kind: Kind, length: u16) -> Result<(), AllocError>
    ensures { OnOk result (out.new.items ≡ out.old.items ++ type_text kind length) }
{
    match kind {
        Kind::SmallInt => out.extend_from_slice(b"SMALLINT"),
        Kind::Integer => out.extend_from_slice(b"INTEGER"),
        Kind::BigInt => out.extend_from_slice(b"BIGINT"),
        Kind::VarChar => {
            out.extend_from_slice(b"VARCHAR")?;
            put_length(out, length)
        }
        Kind::VarBinary => {
            out.extend_from_slice(b"VARBINARY")?;
            put_length(out, length)
        }
    }
}

/// Appends that a column takes no NULL, where it takes none.
fn put_nullable(out: &mut Vec<u8>, is_nullable: bool) -> Result<(), AllocError>
    ensures { OnOk result (out.new.items ≡ out.old.items ++ null_text is_nullable) }
{
    if is_nullable {
        return Ok(());
    }
    out.extend_from_slice(b" NOT NULL")
}

/// Appends a column's definition, or some of it where memory is wanting.
pub(crate) fn put_column(out: &mut Vec<u8>, column: &Column) -> Result<(), AllocError>
    ensures { OnOk result (out.new.items ≡ out.old.items ++ column_text (column_of column.now)) }
{
    out.extend_from_slice(column.name.as_bytes())?;
    out.push(b' ')?;
    put_type(out, column.kind, column.length)?;
    put_nullable(out, column.is_nullable)
}
