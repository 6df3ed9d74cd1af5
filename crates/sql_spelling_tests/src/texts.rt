//! Tables and rows as SQL, which is parsed.

use row_values::{RowRef, Schema, Value, are_row, encode_row};
use sql_spelling::{put_create, put_insert};
use sql_text::parse;
use std::alloc::Global;
use test_rows::{cells_of, say, schema_of, values_of};

/// The table that was told last, and what became of the lines so far.
#[derive(Drop)]
pub struct Texts {
    alloc: Global,
    table: Option<(String, Schema)>,
    written: Vec<u8>,
}

// The words of a line.
fn words_of<'a>(alloc: Global, line: &'a str) -> Option<Vec<&'a str>> {
    let mut words = Vec::new(alloc);
    for word in line.split_ascii_whitespace() {
        words.push(word).ok()?;
    }
    Some(words)
}

fn is_parsed(alloc: Global, sql: &[u8]) -> bool {
    match str::from_utf8(sql) {
        Ok(sql) => parse(alloc, sql).is_ok(),
        Err(_) => false,
    }
}

// A text, and whether it is parsed.
fn tell_text(alloc: Global, sql: &[u8], out: &mut Vec<u8>) -> Option<()> {
    out.extend_from_slice(sql).ok()?;
    out.push(b'\n').ok()?;
    say(
        out,
        if is_parsed(alloc, sql) {
            "read"
        } else {
            "refused"
        },
    )
}

fn tell_table(alloc: Global, name: &str, schema: &Schema, out: &mut Vec<u8>) -> Option<()> {
    let mut sql = Vec::new(alloc);
    put_create(&mut sql, name, schema).ok()?;
    tell_text(alloc, &sql, out)
}

fn tell_row(
    alloc: Global,
    name: &str,
    schema: &Schema,
    values: &[Value<'_>],
    out: &mut Vec<u8>,
) -> Option<()> {
    if !are_row(schema, values) {
        return say(out, "no row");
    }
    let bytes = encode_row(alloc, schema, values).ok()?;
    let row = RowRef::parse(schema, &bytes).ok()?;
    let mut sql = Vec::new(alloc);
    put_insert(&mut sql, name, &row).ok()?;
    tell_text(alloc, &sql, out)
}

impl Texts {
    /// No table.
    pub fn new(alloc: Global) -> Texts {
        Texts {
            alloc,
            table: None,
            written: Vec::new(alloc),
        }
    }

    /// Each line, and what it came to.
    pub fn written(&self) -> &[u8] {
        &self.written
    }

    /// Answers each line that is not empty and does not begin with #. None where a line asks for nothing that there is, and
    /// without memory.
    pub fn follow(&mut self, text: &str) -> Option<()> {
        for line in text.split('\n') {
            self.written.extend_from_slice(line.as_bytes()).ok()?;
            self.written.push(b'\n').ok()?;
            if !line.is_empty() && !line.starts_with('#') {
                self.answer(line)?;
            }
        }
        Some(())
    }

    fn answer(&mut self, line: &str) -> Option<()> {
        let words = words_of(self.alloc, line)?;
        match words.as_slice() {
            ["table", name, words @ ..] => self.take_table(name, words),
            ["row", words @ ..] => self.answer_row(words),
            _ => None,
        }
    }

    fn take_table(&mut self, name: &str, words: &[&str]) -> Option<()> {
        let Some(schema) = schema_of(self.alloc, words)? else {
            return say(&mut self.written, "no schema");
        };
        tell_table(self.alloc, name, &schema, &mut self.written)?;
        self.table = Some((String::from_str(self.alloc, name).ok()?, schema));
        Some(())
    }

    fn answer_row(&mut self, words: &[&str]) -> Option<()> {
        let cells = cells_of(self.alloc, words)?;
        let values = values_of(self.alloc, &cells)?;
        let (name, schema) = self.table.as_ref()?;
        tell_row(self.alloc, name, schema, &values, &mut self.written)
    }
}
