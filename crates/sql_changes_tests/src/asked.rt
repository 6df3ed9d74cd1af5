//! What is asked, a line each.

use crate::made::{Task, tell_removed, tell_statement};
use row_values::{RowRef, Schema, are_row, encode_row};
use sql_predicates::{column_place, table_name};
use std::alloc::Global;
use std::sync::Arc;
use tables::RowList;
use test_rows::{cells_of, say, schema_of, values_of};

/// The schema, rows of it, and what became of the lines so far.
#[derive(Drop)]
pub struct Asked {
    alloc: Global,
    schema: Option<Schema>,
    rows: Vec<Vec<u8>>,
    written: Vec<u8>,
}

fn words_of<'a>(alloc: Global, text: &'a str) -> Option<Vec<&'a str>> {
    let mut words = Vec::new(alloc);
    for word in text.split_ascii_whitespace() {
        words.push(word).ok()?;
    }
    Some(words)
}

fn row_of(alloc: Global, schema: &Schema, text: &str) -> Option<Vec<u8>> {
    let words = words_of(alloc, text)?;
    let cells = cells_of(alloc, &words)?;
    let values = values_of(alloc, &cells)?;
    if !are_row(schema, &values) {
        return None;
    }
    encode_row(alloc, schema, &values).ok()
}

fn list_of(alloc: Global, schema: &Schema, rows: &[Vec<u8>]) -> Option<RowList> {
    let schema = Arc::new(alloc, schema.copy(alloc).ok()?).ok()?;
    let mut list = RowList::new(alloc, schema, Vec::new(alloc));
    for row in rows {
        if RowRef::parse(list.schema(), row).is_err() {
            return None;
        }
        list.push(row).ok()?;
    }
    Some(list)
}

// A task with a statement, and the values for its markers behind an upright line.
fn tell_task(alloc: Global, task: &Task<'_>, asked: &str, out: &mut Vec<u8>) -> Option<()> {
    let (text, values) = asked.split_once('|').unwrap_or((asked, ""));
    let words = words_of(alloc, values)?;
    let cells = cells_of(alloc, &words)?;
    let values = values_of(alloc, &cells)?;
    tell_statement(alloc, text, &values, task, out)
}

fn tell_inserted(alloc: Global, schema: &Schema, asked: &str, out: &mut Vec<u8>) -> Option<()> {
    let (how, rest) = asked.split_once(' ')?;
    let (left, text) = rest.split_once(' ')?;
    let task = Task::Insert {
        schema,
        is_free: how == "free",
        left: left.parse::<usize>().ok()?,
    };
    tell_task(alloc, &task, text, out)
}

fn tell_updated(alloc: Global, rows: &RowList, asked: &str, out: &mut Vec<u8>) -> Option<()> {
    let (left, text) = asked.split_once(' ')?;
    let left = left.parse::<usize>().ok()?;
    tell_task(alloc, &Task::Update { rows, left }, text, out)
}

fn tell_created(alloc: Global, asked: &str, out: &mut Vec<u8>) -> Option<()> {
    let (tables, rest) = asked.split_once(' ')?;
    let (left, text) = rest.split_once(' ')?;
    let (tables, left) = (tables.parse::<usize>().ok()?, left.parse::<usize>().ok()?);
    tell_task(alloc, &Task::Create { tables, left }, text, out)
}

fn tell_place(alloc: Global, schema: &Schema, name: &str, out: &mut Vec<u8>) -> Option<()> {
    match column_place(schema.columns(), name.as_bytes()) {
        Some(place) => say(out, &format!(in alloc; "at {place}").ok()?),
        None => say(out, "no column"),
    }
}

impl Asked {
    /// No schema, and no row.
    pub fn new(alloc: Global) -> Asked {
        Asked {
            alloc,
            schema: None,
            rows: Vec::new(alloc),
            written: Vec::new(alloc),
        }
    }

    /// Each line, and what it came to.
    pub fn written(&self) -> &[u8] {
        &self.written
    }

    /// Answers each line that is not empty and does not begin with #. None where a line asks for nothing that there is, and
    /// without memory.
    pub fn follow(&mut self, text: &str) -> Option<()> {
        for line in text.split('\n') {
            self.written.extend_from_slice(line.as_bytes()).ok()?;
            self.written.push(b'\n').ok()?;
            if !line.is_empty() && !line.starts_with('#') {
                let (verb, rest) = line.split_once(' ').unwrap_or((line, ""));
                self.answer(verb, rest)?;
            }
        }
        Some(())
    }

    fn answer(&mut self, verb: &str, rest: &str) -> Option<()> {
        match verb {
            "schema" => self.take_schema(rest),
            "create" => tell_created(self.alloc, rest, &mut self.written),
            "literal" => tell_task(self.alloc, &Task::Literal, rest, &mut self.written),
            "name" => {
                let name = table_name(self.alloc, rest.as_bytes()).ok()?;
                say(&mut self.written, &name)
            }
            _ => self.answer_with_schema(verb, rest),
        }
    }

    fn take_schema(&mut self, rest: &str) -> Option<()> {
        let words = words_of(self.alloc, rest)?;
        self.schema = schema_of(self.alloc, &words)?;
        self.rows.clear();
        Some(())
    }

    fn answer_with_schema(&mut self, verb: &str, rest: &str) -> Option<()> {
        let Some(schema) = &self.schema else {
            return None;
        };
        let (alloc, out) = (self.alloc, &mut self.written);
        match verb {
            "insert" => tell_inserted(alloc, schema, rest, out),
            "claims" => tell_task(alloc, &Task::Claims { schema }, rest, out),
            "fixes" => tell_task(alloc, &Task::Fixed { schema }, rest, out),
            "selects" => tell_task(alloc, &Task::Selected { schema }, rest, out),
            "counts" => {
                let rows = list_of(alloc, schema, &self.rows)?;
                tell_task(alloc, &Task::Counted { rows: &rows }, rest, out)
            }
            "place" => tell_place(alloc, schema, rest, out),
            "row" => self.rows.push(row_of(alloc, schema, rest)?).ok(),
            "update" => tell_updated(alloc, &list_of(alloc, schema, &self.rows)?, rest, out),
            "delete" => {
                let list = list_of(alloc, schema, &self.rows)?;
                tell_removed(alloc, &list, rest.parse::<usize>().ok()?, out)
            }
            _ => None,
        }
    }
}
