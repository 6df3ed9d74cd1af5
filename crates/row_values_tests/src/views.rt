//! Rows in one buffer, the rows of a query, and tables in memory.

use crate::rows::{key_of, row_of};
use row_values::{RowRef, Schema, is_name};
use std::alloc::{AllocError, Global};
use std::sync::Arc;
use tables::{Change, PlainFault, PlainView, RowList, Rows, TableView};
use test_bytes::bytes_of;
use test_rows::{say, tell};

fn tell_rows(alloc: Global, rows: &Rows, out: &mut Vec<u8>) -> Option<()> {
    let (count, is_empty) = (rows.len(), rows.is_empty());
    say(
        out,
        &format!(in alloc; "{count} rows, empty {is_empty}").ok()?,
    )?;
    for i in 0..rows.len() {
        tell(alloc, out, "-", rows.row(i))?;
    }
    Some(())
}

/// The rows of these texts, as they stand before each is pushed and at the end; - stands for no bytes.
pub fn tell_pushes(alloc: Global, words: &[&str], out: &mut Vec<u8>) -> Option<()> {
    let mut rows = Rows::new(alloc);
    for word in words {
        tell_rows(alloc, &rows, out)?;
        let row: &[u8] = if *word == "-" { &[] } else { word.as_bytes() };
        rows.push(row).ok()?;
    }
    tell_rows(alloc, &rows, out)
}

fn shared_copy(alloc: Global, schema: &Schema) -> Option<Arc<Schema>> {
    Arc::new(alloc, schema.copy(alloc).ok()?).ok()
}

// A list of one row, of which no column is asked for. None where these bytes are no row.
fn list_of(alloc: Global, schema: Arc<Schema>, bytes: &[u8]) -> Option<RowList> {
    if RowRef::parse(&schema, bytes).is_err() {
        return None;
    }
    let mut rows = RowList::new(alloc, schema, Vec::new(alloc));
    match rows.push(bytes) {
        Ok(()) => Some(rows),
        Err(_) => None,
    }
}

/// A list of one row, of which no column is asked for.
pub fn tell_list(alloc: Global, schema: &Schema, words: &[&str], out: &mut Vec<u8>) -> Option<()> {
    let bytes = bytes_of(alloc, words).ok()?;
    let rows = list_of(alloc, shared_copy(alloc, schema)?, &bytes)?;
    tell_listed(alloc, &rows, out)
}

fn tell_listed(alloc: Global, rows: &RowList, out: &mut Vec<u8>) -> Option<()> {
    let (count, is_empty) = (rows.len(), rows.is_empty());
    let (columns, selected) = (rows.schema().columns().len(), rows.selected().len());
    let told = format!(in alloc;
        "{count} rows, empty {is_empty}, {selected} of {columns} columns"
    ).ok()?;
    say(out, &told)?;
    if rows.is_empty() {
        return None;
    }
    tell(alloc, out, "-", rows.row(0).bytes())
}

// The row or the key that a verb has behind it, as values or as bytes.
fn named_bytes(alloc: Global, schema: &Schema, verb: &str, words: &[&str]) -> Option<Vec<u8>> {
    match verb {
        "put" => row_of(alloc, schema, words),
        "remove" | "get" => key_of(alloc, schema, words),
        _ => bytes_of(alloc, words).ok(),
    }
}

/// Tables in memory.
#[derive(Drop)]
pub struct Views {
    alloc: Global,
    view: PlainView,
}

impl Views {
    /// No table.
    pub fn new(alloc: Global) -> Views {
        Views {
            alloc,
            view: PlainView::new(alloc),
        }
    }

    /// What a line comes to whose first words are a verb and the name of a table. Rows and keys are those of the schema.
    pub fn answer(
        &mut self,
        schema: &Schema,
        verb: &str,
        words: &[&str],
        out: &mut Vec<u8>,
    ) -> Option<()> {
        let [name, words @ ..] = words else {
            return self.answer_alone(verb, out);
        };
        match verb {
            "create" => self.create(schema, name),
            "scan" => self.tell_scan(name, out),
            "shape" => self.tell_shape(schema, name, out),
            _ => self.answer_with(
                verb,
                name,
                named_bytes(self.alloc, schema, verb, words)?,
                out,
            ),
        }
    }

    // `put` a row, `remove` or `get` the one of a key.
    fn answer_with(
        &mut self,
        verb: &str,
        name: &str,
        bytes: Vec<u8>,
        out: &mut Vec<u8>,
    ) -> Option<()> {
        match verb {
            "put" | "put-bytes" => self.put(name, bytes),
            "remove" => self.remove(name, bytes),
            "get" | "get-bytes" => self.get(name, &bytes, out),
            _ => None,
        }
    }

    fn tell_scan(&mut self, name: &str, out: &mut Vec<u8>) -> Option<()> {
        tell_rows(self.alloc, &self.view.scan(self.alloc, name).ok()?, out)
    }

    // `fresh` lets all tables go, `tables` counts them, and `faults` tells damage and want of memory apart.
    fn answer_alone(&mut self, verb: &str, out: &mut Vec<u8>) -> Option<()> {
        match verb {
            "fresh" => {
                self.view = PlainView::new(self.alloc);
                Some(())
            }
            "tables" => self.tell_tables(out),
            "faults" => self.tell_faults(out),
            _ => None,
        }
    }

    fn tell_tables(&mut self, out: &mut Vec<u8>) -> Option<()> {
        let count = self.view.tables().ok()?;
        say(out, &format!(in self.alloc; "{count} tables").ok()?)
    }

    fn tell_faults(&self, out: &mut Vec<u8>) -> Option<()> {
        let is_damage = self.view.damaged() == PlainFault::Damaged;
        let is_memory = PlainFault::from(AllocError) == PlainFault::NoMemory;
        say(
            out,
            &format!(in self.alloc; "damage {is_damage}, no memory {is_memory}").ok()?,
        )
    }

    fn create(&mut self, schema: &Schema, name: &str) -> Option<()> {
        let table = String::from_str(self.alloc, name).ok()?;
        if !is_name(table.as_str().as_bytes()) {
            return None;
        }
        let change = Change::create(table, schema.copy(self.alloc).ok()?);
        self.view.apply(self.alloc, change).ok()
    }

    fn put(&mut self, name: &str, row: Vec<u8>) -> Option<()> {
        let table = String::from_str(self.alloc, name).ok()?;
        if !is_name(table.as_str().as_bytes()) || row.len() > 4_000 {
            return None;
        }
        self.view.apply(self.alloc, Change::put(table, row)).ok()
    }

    fn remove(&mut self, name: &str, key: Vec<u8>) -> Option<()> {
        let table = String::from_str(self.alloc, name).ok()?;
        if !is_name(table.as_str().as_bytes()) || key.len() > 8_012 {
            return None;
        }
        self.view.apply(self.alloc, Change::remove(table, key)).ok()
    }

    fn get(&mut self, name: &str, key: &[u8], out: &mut Vec<u8>) -> Option<()> {
        match self.view.get(self.alloc, name, key).ok()? {
            Some(row) => tell(self.alloc, out, "-", &row),
            None => say(out, "no row"),
        }
    }

    // How many columns a table has, and whether its schema is this one.
    fn tell_shape(&mut self, schema: &Schema, name: &str, out: &mut Vec<u8>) -> Option<()> {
        let Some(found) = self.view.schema(self.alloc, name).ok()? else {
            return say(out, "no table");
        };
        let columns = found.columns().len();
        let is_this = found.columns() == schema.columns() && found.key()[..] == schema.key()[..];
        say(
            out,
            &format!(in self.alloc; "{columns} columns, of this schema {is_this}").ok()?,
        )
    }
}
