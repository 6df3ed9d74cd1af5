//! What a statement sees of rows that were read ahead.

use crate::given::Given;
use ahead_view::{AheadView, ReadError, Wanted, read_ahead};
use paged_tables::PagedTables;
use std::alloc::Global;
use std::fmt::Display;
use tables::{PlainFault, Rows, TableView};
use test_rows::{say, tell};

/// Tells what a statement sees for which this is read of what is given: the row of a key in a table, or all of its rows, each time that it
/// asks, and what it knows of the tables.
pub fn tell_ahead(
    alloc: Global,
    tables: &PagedTables,
    given: &mut Given,
    wanted: Wanted<'_>,
    (name, key): (&str, Option<&[u8]>),
    out: &mut Vec<u8>,
) -> Option<()> {
    match read_ahead(given, alloc, tables, wanted) {
        Ok(read) => tell_view(alloc, &mut AheadView::new(tables, read), name, key, out),
        Err(error) => say_unread(alloc, given, error, out),
    }
}

fn tell_view<V: TableView<Fault = PlainFault>>(
    alloc: Global,
    view: &mut V,
    name: &str,
    key: Option<&[u8]>,
    out: &mut Vec<u8>,
) -> Option<()> {
    match key {
        Some(key) => tell_found(alloc, view.get(alloc, name, key), out),
        None => tell_whole(alloc, view, name, out),
    }
}

// All rows, twice, and what is known of the tables.
fn tell_whole<V: TableView<Fault = PlainFault>>(
    alloc: Global,
    view: &mut V,
    name: &str,
    out: &mut Vec<u8>,
) -> Option<()> {
    tell_scanned(alloc, view.scan(alloc, name), out)?;
    tell_scanned(alloc, view.scan(alloc, name), out)?;
    let is_known = view.schema(alloc, name).ok()?.is_some();
    say_known(alloc, is_known, view.tables().ok()?, out)
}

fn say_known(alloc: Global, is_known: bool, count: usize, out: &mut Vec<u8>) -> Option<()> {
    say(
        out,
        &format!(in alloc; "known {is_known}, {count} tables").ok()?,
    )
}

// Why nothing was read, and whether that counts as a failure of the device.
fn say_unread(alloc: Global, given: &Given, error: ReadError, out: &mut Vec<u8>) -> Option<()> {
    let is_failed = given.is_failed();
    say(out, &format!(in alloc; "{error}, failed {is_failed}").ok()?)
}

fn say_fault<F: Display>(alloc: Global, fault: &F, out: &mut Vec<u8>) -> Option<()> {
    say(out, &format!(in alloc; "{fault}").ok()?)
}

/// Tells the row of a key, or that there is none, or why it is not known.
pub fn tell_found<F: Display + Copy>(
    alloc: Global,
    found: Result<Option<Vec<u8>>, F>,
    out: &mut Vec<u8>,
) -> Option<()> {
    match found {
        Ok(Some(row)) => tell(alloc, out, "row", &row),
        Ok(None) => say(out, "no row"),
        Err(fault) => say_fault(alloc, &fault, out),
    }
}

/// Tells how many rows there are, and each in its order, or why they are not known.
pub fn tell_scanned<F: Display + Copy>(
    alloc: Global,
    found: Result<Rows, F>,
    out: &mut Vec<u8>,
) -> Option<()> {
    match found {
        Ok(rows) => tell_rows(alloc, &rows, out),
        Err(fault) => say_fault(alloc, &fault, out),
    }
}

fn tell_rows(alloc: Global, rows: &Rows, out: &mut Vec<u8>) -> Option<()> {
    let count = rows.len();
    say(out, &format!(in alloc; "{count} rows").ok()?)?;
    for i in 0..rows.len() {
        tell(alloc, out, "-", rows.row(i))?;
    }
    Some(())
}
