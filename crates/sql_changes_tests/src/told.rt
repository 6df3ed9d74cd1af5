//! Changes and values as they are written down.

use crate::made::Made;
use core_calls::SqlFault;
use row_values::{Schema, Value};
use std::alloc::Global;
use tables::{Action, Change};
use test_rows::{say, tell};

// A table's columns, which of them take NULL, and its key.
fn tell_table(alloc: Global, table: &str, schema: &Schema, out: &mut Vec<u8>) -> Option<()> {
    for column in schema.columns() {
        let (name, is_nullable, length) = (column.name.as_str(), column.is_nullable, column.length);
        let text = format!(in alloc; "column {name} of {length}, takes NULL {is_nullable}").ok()?;
        say(out, &text)?;
    }
    tell(
        alloc,
        out,
        &format!(in alloc; "create {table}, key").ok()?,
        schema.key(),
    )
}

fn tell_change(alloc: Global, change: &Change, out: &mut Vec<u8>) -> Option<()> {
    match &change.action {
        Action::Put { table, row } => {
            let table = table.as_str();
            tell(alloc, out, &format!(in alloc; "put {table}").ok()?, row)
        }
        Action::Remove { table, key } => {
            let table = table.as_str();
            tell(alloc, out, &format!(in alloc; "remove {table}").ok()?, key)
        }
        Action::CreateTable { table, schema } => tell_table(alloc, table.as_str(), schema, out),
    }
}

/// Why something is refused.
pub fn tell_fault(alloc: Global, fault: &SqlFault, out: &mut Vec<u8>) -> Option<()> {
    let code = fault.code();
    let state = str::from_utf8(fault.state()).ok()?;
    say(out, &format!(in alloc; "refused {code} {state}").ok()?)
}

/// Each change, or the fault.
pub fn tell_made(alloc: Global, made: &Made, out: &mut Vec<u8>) -> Option<()> {
    match made {
        Ok(changes) => {
            for change in changes {
                tell_change(alloc, change, out)?;
            }
            Some(())
        }
        Err(fault) => tell_fault(alloc, fault, out),
    }
}

/// A value.
pub fn tell_value(alloc: Global, value: Value<'_>, out: &mut Vec<u8>) -> Option<()> {
    match value {
        Value::Null => say(out, "NULL"),
        Value::Number(number) => say(out, &format!(in alloc; "number {number}").ok()?),
        Value::Text(text) => say(out, &format!(in alloc; "text {text}").ok()?),
        Value::Bytes(bytes) => tell(alloc, out, "bytes", bytes),
    }
}
