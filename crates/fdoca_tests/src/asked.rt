//! What is asked, a line each.

use crate::answers::{push_answer, push_places};
use crate::changes::{Counts, of_descriptor_fronts, of_descriptors, of_row_fronts, of_rows};
use crate::parameters::push_read;
use row_values::Schema;
use std::alloc::{AllocError, Global};
use test_bytes::bytes_of;
use test_rows::{say, schema_of};

/// A schema, a row's bytes, and what became of the lines so far.
#[derive(Drop)]
pub struct Asked {
    alloc: Global,
    schema: Option<Schema>,
    row: Vec<u8>,
    written: Vec<u8>,
}

fn words_of<'a>(alloc: Global, text: &'a str) -> Option<Vec<&'a str>> {
    let mut words = Vec::new(alloc);
    for word in text.split_ascii_whitespace() {
        words.push(word).ok()?;
    }
    Some(words)
}

// The bytes of a descriptor and of a row, which an upright line parts.
fn parts_of(alloc: Global, text: &str) -> Option<(Vec<u8>, Vec<u8>)> {
    let (descriptor, row) = text.split_once('|')?;
    let descriptor = bytes_of(alloc, &[descriptor]).ok()?;
    let row = bytes_of(alloc, &[row]).ok()?;
    Some((descriptor, row))
}

fn said_counts(
    alloc: Global,
    verb: &str,
    of_descriptor: Counts,
    of_row: Counts,
) -> Result<String, AllocError> {
    let ((tried, malformed), (others, bad)) = (of_descriptor, of_row);
    format!(in alloc;
        "{tried} {verb} of the descriptor: {malformed} malformed; {others} of the row: {bad} malformed"
    )
}

fn said_of(alloc: Global, verb: &str, descriptor: &[u8], row: &[u8]) -> Option<String> {
    match verb {
        "changed" => said_counts(
            alloc,
            "changes",
            of_descriptors(alloc, descriptor, row)?,
            of_rows(alloc, descriptor, row)?,
        )
        .ok(),
        "fronts" => said_counts(
            alloc,
            verb,
            of_descriptor_fronts(alloc, descriptor, row)?,
            of_row_fronts(alloc, descriptor, row)?,
        )
        .ok(),
        _ => None,
    }
}

impl Asked {
    /// Nothing.
    pub fn new(alloc: Global) -> Asked {
        Asked {
            alloc,
            schema: None,
            row: Vec::new(alloc),
            written: Vec::new(alloc),
        }
    }

    /// Each line, and what it came to.
    pub fn written(&self) -> &[u8] {
        &self.written
    }

    /// Does what each line asks for that does not begin with #. None where a line asks for nothing that there is, and without memory.
    pub fn follow(&mut self, text: &str) -> Option<()> {
        for line in text.lines() {
            self.written.extend_from_slice(line.as_bytes()).ok()?;
            self.written.push(b'\n').ok()?;
            if !line.starts_with('#') {
                let (verb, rest) = line.split_once(' ').unwrap_or((line, ""));
                self.answer(verb, rest)?;
            }
        }
        Some(())
    }

    // `schema` and `row` lay those of answers, `places` and `answer` ask of places, and `read`, `changed` and `fronts` of a descriptor and
    // a row.
    fn answer(&mut self, verb: &str, rest: &str) -> Option<()> {
        match verb {
            "schema" => self.lay_schema(rest),
            "row" => self.lay_row(rest),
            "places" | "answer" => self.answer_of_places(verb, rest),
            "read" => self.read(rest),
            _ => {
                let (descriptor, row) = parts_of(self.alloc, rest)?;
                let told = said_of(self.alloc, verb, &descriptor, &row)?;
                say(&mut self.written, &told)
            }
        }
    }

    fn lay_schema(&mut self, rest: &str) -> Option<()> {
        let words = words_of(self.alloc, rest)?;
        self.schema = Some(schema_of(self.alloc, &words)??);
        say(&mut self.written, "a schema")
    }

    fn lay_row(&mut self, rest: &str) -> Option<()> {
        self.row = bytes_of(self.alloc, &[rest]).ok()?;
        let count = self.row.len();
        say(
            &mut self.written,
            &format!(in self.alloc; "{count} bytes").ok()?,
        )
    }

    fn answer_of_places(&mut self, verb: &str, rest: &str) -> Option<()> {
        let places = bytes_of(self.alloc, &[rest]).ok()?;
        let Some(schema) = &self.schema else {
            return None;
        };
        match verb {
            "places" => push_places(&mut self.written, schema, &places),
            _ => push_answer(self.alloc, &mut self.written, schema, &self.row, &places),
        }
    }

    fn read(&mut self, rest: &str) -> Option<()> {
        let (descriptor, row) = parts_of(self.alloc, rest)?;
        self.written.extend_from_slice(b"  ").ok()?;
        push_read(self.alloc, &mut self.written, &descriptor, &row)?;
        self.written.push(b'\n').ok()
    }
}
