//! Schemas as a line spells them.

use row_values::{Column, Kind, Schema};
use std::alloc::Global;

fn kind_of(name: &str) -> Option<Kind> {
    match name {
        "SMALLINT" => Some(Kind::SmallInt),
        "INTEGER" => Some(Kind::Integer),
        "BIGINT" => Some(Kind::BigInt),
        "VARCHAR" => Some(Kind::VarChar),
        "VARBINARY" => Some(Kind::VarBinary),
        _ => None,
    }
}

// A column as NAME,KIND,null,LENGTH or NAME,KIND,not,LENGTH.
fn column_of(alloc: Global, word: &str) -> Option<Column> {
    let (name, rest) = word.split_once(',')?;
    let (kind, rest) = rest.split_once(',')?;
    let (null, length) = rest.split_once(',')?;
    Some(Column {
        name: String::from_str(alloc, name).ok()?,
        kind: kind_of(kind)?,
        is_nullable: null == "null",
        length: length.parse::<u16>().ok()?,
    })
}

/// The schema of these columns and of these places of its key, where it is one.
pub fn schema_of(alloc: Global, words: &[&str]) -> Option<Option<Schema>> {
    let mut columns = Vec::new(alloc);
    let mut key = Vec::new(alloc);
    for word in words {
        if word.contains(',') {
            columns.push(column_of(alloc, word)?).ok()?;
        } else {
            key.push(word.parse::<u8>().ok()?).ok()?;
        }
    }
    Some(Schema::new(columns, key).ok())
}
