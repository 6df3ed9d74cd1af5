//! What is asked, a line each.

use crate::changes::{tell_change, tell_damage, tell_parts_of_change};
use crate::rows::{
    key_of, tell_admitted, tell_bytes, tell_key, tell_order, tell_parts, tell_values,
};
use crate::schemas::{tell_read, tell_schema};
use crate::views::{Views, tell_list, tell_pushes};
use row_values::Schema;
use std::alloc::Global;
use test_rows::schema_of;

/// The schema that was told last, keys of it, the tables, and what became of the lines so far.
#[derive(Drop)]
pub struct Asked {
    alloc: Global,
    schema: Option<Schema>,
    keys: Vec<Vec<u8>>,
    views: Views,
    written: Vec<u8>,
}

// The words of a line.
fn words_of<'a>(alloc: Global, line: &'a str) -> Option<Vec<&'a str>> {
    let mut words = Vec::new(alloc);
    for word in line.split_ascii_whitespace() {
        words.push(word).ok()?;
    }
    Some(words)
}

impl Asked {
    /// No schema, no key and no table.
    pub fn new(alloc: Global) -> Asked {
        Asked {
            alloc,
            schema: None,
            keys: Vec::new(alloc),
            views: Views::new(alloc),
            written: Vec::new(alloc),
        }
    }

    /// Each line, and what it came to.
    pub fn written(&self) -> &[u8] {
        &self.written
    }

    /// Answers each line that is not empty and does not begin with #. None where a line asks for nothing that there is, and
    /// without memory.
    pub fn follow(&mut self, text: &str) -> Option<()> {
        for line in text.split('\n') {
            self.written.extend_from_slice(line.as_bytes()).ok()?;
            self.written.push(b'\n').ok()?;
            if !line.is_empty() && !line.starts_with('#') {
                self.answer(line)?;
            }
        }
        Some(())
    }

    fn answer(&mut self, line: &str) -> Option<()> {
        let words = words_of(self.alloc, line)?;
        let [verb, words @ ..] = words.as_slice() else {
            return None;
        };
        match *verb {
            "schema" => self.take_schema(words),
            "read" => tell_read(self.alloc, words, &mut self.written),
            "change" => tell_change(self.alloc, words, &mut self.written),
            "damage" => tell_damage(self.alloc, words, &mut self.written),
            "parts-of-change" => tell_parts_of_change(self.alloc, words, &mut self.written),
            "pushes" => tell_pushes(self.alloc, words, &mut self.written),
            "keep-key" => self.keep_key(words),
            _ => self.answer_with_schema(verb, words),
        }
    }

    fn take_schema(&mut self, words: &[&str]) -> Option<()> {
        self.schema = schema_of(self.alloc, words)?;
        match &self.schema {
            Some(schema) => tell_schema(self.alloc, schema, &mut self.written),
            None => self.written.extend_from_slice(b"  no schema\n").ok(),
        }
    }

    fn keep_key(&mut self, words: &[&str]) -> Option<()> {
        let Some(schema) = &self.schema else {
            return None;
        };
        self.keys.push(key_of(self.alloc, schema, words)?).ok()
    }

    fn answer_with_schema(&mut self, verb: &str, words: &[&str]) -> Option<()> {
        let Some(schema) = &self.schema else {
            return None;
        };
        let out = &mut self.written;
        match verb {
            "values" => tell_values(self.alloc, schema, words, out),
            "admits" => tell_admitted(self.alloc, schema, words, out),
            "row" => tell_bytes(self.alloc, schema, words, out),
            "key" => tell_key(self.alloc, schema, words, out),
            "parts-of-key" => tell_parts(self.alloc, schema, words, out),
            "order" => tell_order(schema, &self.keys, out),
            "list" => tell_list(self.alloc, schema, words, out),
            _ => self.views.answer(schema, verb, words, out),
        }
    }
}
