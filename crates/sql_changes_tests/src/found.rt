//! What WHEREs and the columns of a SELECT come to.

use crate::told::tell_fault;
use core_calls::StatementError;
use row_values::{Schema, Value};
use sql_predicates::{Filter, fixed_key, selected_places};
use sql_text::{Columns, Predicate};
use std::alloc::Global;
use tables::RowList;
use test_rows::{say, tell};

// Which rows match, `x` for each that does.
fn tell_matches(alloc: Global, filter: &Filter, rows: &RowList, out: &mut Vec<u8>) -> Option<()> {
    let mut marks = String::new(alloc);
    for i in 0..rows.len() {
        let mark = if filter.matches(&rows.row(i)) {
            'x'
        } else {
            '-'
        };
        marks.push(mark).ok()?;
    }
    say(out, marks.as_str())
}

/// Which of these rows match a WHERE, or the first fault of it.
pub fn tell_counted(
    alloc: Global,
    filter: Option<&Predicate<'_>>,
    params: &[Value<'_>],
    rows: &RowList,
    out: &mut Vec<u8>,
) -> Option<()> {
    match Filter::bind(alloc, rows.schema(), filter, params) {
        Ok(filter) => tell_matches(alloc, &filter, rows, out),
        Err(StatementError::Fault(fault)) => tell_fault(alloc, &fault, out),
        Err(StatementError::NoMemory) => None,
    }
}

/// The key that a WHERE fixes.
pub fn tell_fixed(
    alloc: Global,
    filter: Option<&Predicate<'_>>,
    params: &[Value<'_>],
    schema: &Schema,
    out: &mut Vec<u8>,
) -> Option<()> {
    match fixed_key(alloc, schema, filter, params).ok()? {
        Some(key) => tell(alloc, out, "key", &key),
        None => say(out, "no key"),
    }
}

/// The places of the columns that a SELECT asks for, or the first fault of them.
pub fn tell_places(
    alloc: Global,
    columns: &Columns<'_>,
    schema: &Schema,
    out: &mut Vec<u8>,
) -> Option<()> {
    match selected_places(alloc, schema, columns) {
        Ok(places) => tell(alloc, out, "columns", &places),
        Err(StatementError::Fault(fault)) => tell_fault(alloc, &fault, out),
        Err(StatementError::NoMemory) => None,
    }
}
