//! The bytes of schemas.

ghost use Rattle.std.specs.Prelude.{◌≡◌, ◌≤◌, ◌++◌, ◌*◌, OnErr, OnOk, length, map, option_map, true};
ghost use Rattle.std.specs.String.{string_bytes};
ghost use Rattle.std.specs.List.{flat_map, list_all};
ghost use Rattle.row_values.specs.Column.{column_of};
ghost use Rattle.row_values.specs.Schema.{is_column, is_name};
ghost use Rattle.row_values.specs.Bytes.{Keeps, Reads, code_of, column_at, column_bytes, columns_at, flag_at, kind_at, name_at, name_in, named, named_at, parts_after, parts_at, schema_at, schema_bytes};

use crate::column::{Column, Kind, is_name};
use crate::encoding::{split_front, text_of};
use crate::row::ReadError;
use crate::schema::{BadSchema, Schema};
use byteorder::{BigEndian, ByteOrder};
use std::alloc::{AllocError, Global};

impl Schema {
    /// How many bytes the schema has when it is written.
    pub fn length(&self) -> usize
        ensures exact { result ≡ length (schema_bytes self.now) }
        ensures short { result ≤ 4096 }
    {
        2 + columns_length(self.columns()) + self.key().len()
    }

    /// Appends the bytes of the schema. Where memory is wanting nothing is appended.
    pub fn write(&self, out: &mut Vec<u8>) -> Result<(), AllocError>
        ensures ok { OnOk result (out.new.items ≡ out.old.items ++ schema_bytes self.now) }
        ensures err { OnErr result (out.new.items ≡ out.old.items) }
    {
        let length = out.len();
        let written = put_schema(out, self);
        if written.is_err() {
            out.truncate(length);
        }
        written
    }

    /// The schema whose bytes stand in front, with what follows. Bytes that are no schema's are
    /// damaged; what `new` refuses is no schema.
    pub fn read(alloc: Global, bytes: &[u8]) -> Result<(Schema, &[u8]), ReadError>
        ensures { Reads (λ x. (x.0, x.1.now)) result (schema_at bytes.now) }
    {
        let (columns, key, rest) = match read_parts(alloc, bytes) {
            Ok(parts) => parts,
            Err(error) => return Err(error),
        };
        match Schema::new(columns, key) {
            Ok(schema) => Ok((schema, rest)),
            Err(BadSchema) => Err(ReadError::Damaged),
        }
    }
}

// The columns and the key of a schema, with what follows.
fn read_parts(alloc: Global, bytes: &[u8]) -> Result<(Vec<Column>, Vec<u8>, &[u8]), ReadError>
    ensures { Reads (λ x. (record { columns = map column_of x.0.items; key = x.1.items }, x.2.now)) result (parts_at bytes.now) }
{
    let [count, rest @ ..] = bytes else {
        return Err(ReadError::Damaged);
    };
    read_counted_parts(alloc, *count, rest)
}

// The columns and the key of a schema, behind the number of its columns, with what follows.
fn read_counted_parts(
    alloc: Global,
    count: u8,
    bytes: &[u8],
) -> Result<(Vec<Column>, Vec<u8>, &[u8]), ReadError>
    ensures { Reads (λ x. (record { columns = map column_of x.0.items; key = x.1.items }, x.2.now)) result (parts_after count bytes.now) }
{
    let (columns, rest) = match read_columns(alloc, count, bytes) {
        Ok(columns) => columns,
        Err(error) => return Err(error),
    };
    let Some((key, rest)) = split_named(rest) else {
        return Err(ReadError::Damaged);
    };
    Ok((columns, Vec::from_slice(alloc, key)?, rest))
}

fn columns_length(columns: &[Column]) -> usize
    requires valid { list_all is_column (map column_of columns.now) ≡ true }
    requires few { length columns.now ≤ 64 }
    ensures exact { result ≡ length (flat_map column_bytes (map column_of columns.now)) }
    ensures short { result ≤ 64 * 35 }
{
    let mut length = 0;
    for column in columns {
        length += 5 + column.name.as_str().len();
    }
    length
}

// Appends the bytes of a schema, or some of them.
fn put_schema(out: &mut Vec<u8>, schema: &Schema) -> Result<(), AllocError>
    ensures ok { OnOk result (out.new.items ≡ out.old.items ++ schema_bytes schema.now) }
    ensures err { OnErr result (Keeps out.old.items out.new.items) }
{
    let columns = schema.columns();
    out.push(columns.len() as u8)?;
    put_columns(out, columns)?;
    let key = schema.key();
    out.push(key.len() as u8)?;
    out.extend_from_slice(key)
}

fn put_columns(out: &mut Vec<u8>, columns: &[Column]) -> Result<(), AllocError>
    requires { list_all is_column (map column_of columns.now) ≡ true }
    ensures ok { OnOk result (out.new.items ≡ out.old.items ++ flat_map column_bytes (map column_of columns.now)) }
    ensures err { OnErr result (Keeps out.old.items out.new.items) }
{
    for column in columns {
        put_column(out, column)?;
    }
    Ok(())
}

fn put_column(out: &mut Vec<u8>, column: &Column) -> Result<(), AllocError>
    requires { is_column (column_of column.now) ≡ true }
    ensures ok { OnOk result (out.new.items ≡ out.old.items ++ column_bytes (column_of column.now)) }
    ensures err { OnErr result (Keeps out.old.items out.new.items) }
{
    put_name(out, column.name.as_str())?;
    out.push(code(column.kind))?;
    out.push(u8::from(column.is_nullable))?;
    let mut length = [0; 2];
    BigEndian::write_u16(&mut length, column.length);
    out.extend_from_slice(&length)
}

/// Appends a name behind its length, or some of that.
pub fn put_name(out: &mut Vec<u8>, name: &str) -> Result<(), AllocError>
    requires { is_name name.now ≡ true }
    ensures ok { OnOk result (out.new.items ≡ out.old.items ++ named name.now) }
    ensures err { OnErr result (Keeps out.old.items out.new.items) }
{
    out.push(name.len() as u8)?;
    out.extend_from_slice(name.as_bytes())
}

fn code(kind: Kind) -> u8
    ensures { result ≡ code_of kind }
{
    match kind {
        Kind::SmallInt => 1,
        Kind::Integer => 2,
        Kind::BigInt => 3,
        Kind::VarChar => 4,
        Kind::VarBinary => 5,
    }
}

fn kind_of(code: u8) -> Option<Kind>
    ensures { result ≡ kind_at code }
{
    match code {
        1 => Some(Kind::SmallInt),
        2 => Some(Kind::Integer),
        3 => Some(Kind::BigInt),
        4 => Some(Kind::VarChar),
        5 => Some(Kind::VarBinary),
        _ => None,
    }
}

fn flag_of(byte: u8) -> Option<bool>
    ensures { result ≡ flag_at byte }
{
    match byte {
        0 => Some(false),
        1 => Some(true),
        _ => None,
    }
}

/// The bytes behind their length of one byte in front, with what follows.
pub fn split_named(bytes: &[u8]) -> Option<(&[u8], &[u8])>
    ensures { option_map (λ x. (x.0.now, x.1.now)) result ≡ named_at bytes.now }
{
    let [count, rest @ ..] = bytes else {
        return None;
    };
    split_front(rest, usize::from(*count))
}

/// The name that stands in front, with what follows.
pub fn split_name(bytes: &[u8]) -> Option<(&str, &[u8])>
    ensures { option_map (λ x. (x.0.now, x.1.now)) result ≡ name_at bytes.now }
{
    let (name, rest) = split_named(bytes)?;
    Some((name_of(name)?, rest))
}

// The text of these bytes, where they are a name.
fn name_of(bytes: &[u8]) -> Option<&str>
    ensures { option_map (λ name. name.now) result ≡ name_in bytes.now }
{
    if !is_name(bytes) {
        return None;
    }
    text_of(bytes)
}

// A column as it stands in bytes: its name, type, whether it takes NULL, and length.
type ColumnParts<'a> = (&'a str, Kind, bool, u16);

// The column that stands in front, with what follows.
#[tactic(auto, unfolding(crate::specs::Bytes::column_at))]
fn split_column(bytes: &[u8]) -> Option<(ColumnParts<'_>, &[u8])>
    ensures { option_map (λ x. (record { name = x.0.0.now; kind = x.0.1; is_nullable = x.0.2; limit = x.0.3 }, x.1.now)) result ≡ column_at bytes.now }
{
    let (name, rest) = split_name(bytes)?;
    let [code, flag, high, low, rest @ ..] = rest else {
        return None;
    };
    let kind = kind_of(*code)?;
    let is_nullable = flag_of(*flag)?;
    let length = BigEndian::read_u16(&[*high, *low]);
    Some(((name, kind, is_nullable, length), rest))
}

fn read_columns(alloc: Global, count: u8, bytes: &[u8]) -> Result<(Vec<Column>, &[u8]), ReadError>
    ensures { Reads (λ x. (map column_of x.0.items, x.1.now)) result (columns_at count bytes.now) }
{
    let mut columns = Vec::new(alloc);
    let mut rest = bytes;
    for _ in 0..count {
        let Some(((name, kind, is_nullable, length), after)) = split_column(rest) else {
            return Err(ReadError::Damaged);
        };
        let name = String::from_str(alloc, name)?;
        columns.push(Column {
            name,
            kind,
            is_nullable,
            length,
        })?;
        rest = after;
    }
    Ok((columns, rest))
}
