//! What is asked, a line each.

use crate::ahead::tell_ahead;
use crate::changes::{change_of, key_of, rows_of};
use crate::given::Given;
use crate::stores::Stores;
use ahead_view::Wanted;
use row_values::Schema;
use std::alloc::Global;
use tables::Rows;
use test_bytes::bytes_of;
use test_rows::schema_of;

/// The tables, and the schema that was told last.
#[derive(Drop)]
struct Asked {
    alloc: Global,
    schema: Option<Schema>,
    stores: Stores,
}

// The words of a line.
fn words_of<'a>(alloc: Global, line: &'a str) -> Option<Vec<&'a str>> {
    let mut words = Vec::new(alloc);
    for word in line.split_ascii_whitespace() {
        words.push(word).ok()?;
    }
    Some(words)
}

/// Writes each line down, and answers those that are not empty and do not begin with #. None where a line asks for nothing that there is,
/// and without memory.
pub fn follow(alloc: Global, text: &str, out: &mut Vec<u8>) -> Option<()> {
    let mut asked = Asked::new(alloc)?;
    asked.answer_all(text, out)
}

impl Asked {
    // No schema, and no table.
    fn new(alloc: Global) -> Option<Asked> {
        let stores = Stores::new(alloc, u64::MAX)?;
        Some(Asked {
            alloc,
            schema: None,
            stores,
        })
    }

    fn answer_all(&mut self, text: &str, out: &mut Vec<u8>) -> Option<()> {
        for line in text.lines() {
            out.extend_from_slice(line.as_bytes()).ok()?;
            out.push(b'\n').ok()?;
            if !line.is_empty() && !line.starts_with('#') {
                self.answer(line, out)?;
            }
        }
        Some(())
    }

    fn answer(&mut self, line: &str, out: &mut Vec<u8>) -> Option<()> {
        let words = words_of(self.alloc, line)?;
        match words.split_first() {
            Some((verb, words)) => self.answer_words(verb, words, out),
            None => None,
        }
    }

    // `fresh` lets all tables go, over a device that fails behind so many calls if they are told; `schema` lays the schema of the rows, and
    // `do` makes a change at once.
    fn answer_words(&mut self, verb: &str, words: &[&str], out: &mut Vec<u8>) -> Option<()> {
        match verb {
            "fresh" => self.begin(words),
            "schema" => self.take_schema(words),
            "opened" => self.open(words),
            "create" | "put" | "remove" => self.lay(verb, words),
            "do" => self.lay_and_commit(words, out),
            "get" | "get-bytes" => self.tell_row(verb, words, out),
            "ahead" => self.tell_read_ahead(words, out),
            "row-ahead" => self.tell_given_row(words, out),
            "rows-ahead" => self.tell_given_rows(words, out),
            _ => self.answer_of_tables(verb, words, out),
        }
    }

    fn begin(&mut self, words: &[&str]) -> Option<()> {
        let calls = words.first().and_then(|word| word.parse::<u64>().ok());
        self.stores = Stores::new(self.alloc, calls.unwrap_or(u64::MAX))?;
        Some(())
    }

    fn take_schema(&mut self, words: &[&str]) -> Option<()> {
        self.schema = Some(schema_of(self.alloc, words)??);
        Some(())
    }

    // One table, as an opening finds it.
    fn open(&mut self, words: &[&str]) -> Option<()> {
        let Some(schema) = &self.schema else {
            return None;
        };
        let [name] = words else {
            return None;
        };
        self.stores = Stores::opened(self.alloc, name, schema)?;
        Some(())
    }

    fn lay(&mut self, verb: &str, words: &[&str]) -> Option<()> {
        let Some(schema) = &self.schema else {
            return None;
        };
        let [name, words @ ..] = words else {
            return None;
        };
        self.stores
            .lay(change_of(self.alloc, schema, verb, name, words)?)?;
        self.stores
            .lay_copy(change_of(self.alloc, schema, verb, name, words)?)
    }

    fn lay_and_commit(&mut self, words: &[&str], out: &mut Vec<u8>) -> Option<()> {
        let [verb, words @ ..] = words else {
            return None;
        };
        self.lay(verb, words)?;
        self.stores.commit(out)
    }

    // The first key is read, and the second asked for.
    fn tell_read_ahead(&mut self, words: &[&str], out: &mut Vec<u8>) -> Option<()> {
        let Some(schema) = &self.schema else {
            return None;
        };
        let [name, read, asked] = words else {
            return None;
        };
        let read = key_of(self.alloc, schema, &[read])?;
        let asked = key_of(self.alloc, schema, &[asked])?;
        self.stores.tell_ahead(name, &read, &asked, out)
    }

    // The row behind the key is given for it, or none.
    fn tell_given_row(&mut self, words: &[&str], out: &mut Vec<u8>) -> Option<()> {
        let Some(schema) = &self.schema else {
            return None;
        };
        let [name, key, words @ ..] = words else {
            return None;
        };
        let key = key_of(self.alloc, schema, &[key])?;
        let mut given = Given::new(rows_of(self.alloc, schema, words)?);
        let wanted = Wanted::Row {
            table: name,
            key: &key,
        };
        let tables = self.stores.tables();
        tell_ahead(
            self.alloc,
            tables,
            &mut given,
            wanted,
            (name, Some(&key)),
            out,
        )
    }

    // These rows are given for all of a table.
    fn tell_given_rows(&mut self, words: &[&str], out: &mut Vec<u8>) -> Option<()> {
        let Some(schema) = &self.schema else {
            return None;
        };
        let [name, words @ ..] = words else {
            return None;
        };
        let mut given = Given::new(rows_of(self.alloc, schema, words)?);
        let wanted = Wanted::Rows { table: name };
        let tables = self.stores.tables();
        tell_ahead(self.alloc, tables, &mut given, wanted, (name, None), out)
    }

    // Nothing is read.
    fn tell_nothing_ahead(&mut self, name: &str, out: &mut Vec<u8>) -> Option<()> {
        let mut given = Given::new(Rows::new(self.alloc));
        let tables = self.stores.tables();
        tell_ahead(
            self.alloc,
            tables,
            &mut given,
            Wanted::Nothing,
            (name, None),
            out,
        )
    }

    // A key is spelled by its values, or by its bytes.
    fn tell_row(&mut self, verb: &str, words: &[&str], out: &mut Vec<u8>) -> Option<()> {
        let Some(schema) = &self.schema else {
            return None;
        };
        let [name, words @ ..] = words else {
            return None;
        };
        let key = match verb {
            "get" => key_of(self.alloc, schema, words)?,
            _ => bytes_of(self.alloc, words).ok()?,
        };
        self.stores.tell_row(name, &key, out)
    }

    // `commit` makes the changes that were laid, `reserve` makes room for them alone, and `release` gives it up; `alike` and `lent` compare
    // the tables of these names; `checkpoint` lays all rows into pages, and goes on over them.
    fn answer_of_tables(&mut self, verb: &str, words: &[&str], out: &mut Vec<u8>) -> Option<()> {
        match verb {
            "commit" => self.stores.commit(out),
            "reserve" => self.stores.reserve(out),
            "checkpoint" => self.stores.checkpoint(out),
            "release" => {
                self.stores.release();
                Some(())
            }
            "alike" | "lent" => self.stores.compare(verb == "lent", words, out),
            _ => self.answer_of_table(verb, words, out),
        }
    }

    // `known` tells whether there is a table, `scan` its rows, and `nothing-ahead` and `all-ahead` what a statement sees of it, for which
    // nothing was read, or the rows of a table.
    fn answer_of_table(&mut self, verb: &str, words: &[&str], out: &mut Vec<u8>) -> Option<()> {
        let [name, others @ ..] = words else {
            return None;
        };
        match verb {
            "known" => self.stores.tell_known(name, out),
            "scan" => self.stores.tell_rows(name, out),
            "nothing-ahead" => self.tell_nothing_ahead(name, out),
            "all-ahead" => self.stores.tell_all_ahead(name, others.first()?, out),
            _ => None,
        }
    }
}
