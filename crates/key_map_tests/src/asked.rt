//! What is asked, a line each. Keys and rows are words of digits; - stands for no bytes.

use key_map::{OrderedRows, Overlay, sort_form};
use row_values::{Schema, is_key};
use std::alloc::Global;
use test_bytes::bytes_of;
use test_rows::{say, schema_of, tell};

/// A schema, the form of a key before, rows, an overlay, and what became of the lines so far.
#[derive(Drop)]
pub struct Asked {
    alloc: Global,
    schema: Option<Schema>,
    form: Vec<u8>,
    rows: OrderedRows,
    overlay: Overlay,
    written: Vec<u8>,
}

fn words_of<'a>(alloc: Global, line: &'a str) -> Option<Vec<&'a str>> {
    let mut words = Vec::new(alloc);
    for word in line.split_ascii_whitespace() {
        words.push(word).ok()?;
    }
    Some(words)
}

fn tell_rows(alloc: Global, rows: &OrderedRows, out: &mut Vec<u8>) -> Option<()> {
    for (key, row) in rows.rows() {
        tell(alloc, out, "key", key)?;
        tell(alloc, out, "row", row)?;
    }
    Some(())
}

fn tell_count_from(
    alloc: Global,
    rows: &OrderedRows,
    start: &Vec<u8>,
    out: &mut Vec<u8>,
) -> Option<()> {
    let mut count = 0_usize;
    for _ in rows.rows_from(start) {
        count = count.wrapping_add(1);
    }
    say(out, &format!(in alloc; "{count} rows").ok()?)
}

// Puts a row, where room could be made for it.
fn put(alloc: Global, rows: &mut OrderedRows, key: &[u8], row: Vec<u8>) -> Option<()> {
    rows.reserve(alloc, key).ok()?;
    if rows.has_room(key) {
        rows.put_reserved(key, row);
    }
    Some(())
}

fn tell_row(alloc: Global, row: Option<&[u8]>, out: &mut Vec<u8>) -> Option<()> {
    match row {
        Some(row) => tell(alloc, out, "row", row),
        None => say(out, "no row"),
    }
}

// Puts a row of some bytes to the overlay, or takes the row of a key out where there are none.
fn change(alloc: Global, overlay: &mut Overlay, key: &[u8], row: Vec<u8>) -> Option<()> {
    overlay.reserve(alloc, key).ok()?;
    if row.is_empty() {
        overlay.remove_reserved(alloc, key);
    } else {
        overlay.put_reserved(key, row);
    }
    Some(())
}

// Says the same of a key in one search, without room made for it before.
fn say_change(alloc: Global, overlay: &mut Overlay, key: Vec<u8>, row: Vec<u8>) -> Option<()> {
    if row.is_empty() {
        overlay.remove(alloc, key).ok()
    } else {
        overlay.put(key, row).ok()
    }
}

impl Asked {
    /// No schema, no row and no change.
    pub fn new(alloc: Global) -> Asked {
        Asked {
            alloc,
            schema: None,
            form: Vec::new(alloc),
            rows: OrderedRows::new(alloc),
            overlay: Overlay::new(alloc),
            written: Vec::new(alloc),
        }
    }

    /// Each line, and what it came to.
    pub fn written(&self) -> &[u8] {
        &self.written
    }

    /// Answers each line that is not empty and does not begin with #. None where a line asks for nothing that there is, and
    /// without memory.
    pub fn follow(&mut self, text: &str) -> Option<()> {
        for line in text.split('\n') {
            self.written.extend_from_slice(line.as_bytes()).ok()?;
            self.written.push(b'\n').ok()?;
            if !line.is_empty() && !line.starts_with('#') {
                self.answer(line)?;
            }
        }
        Some(())
    }

    fn answer(&mut self, line: &str) -> Option<()> {
        let words = words_of(self.alloc, line)?;
        match words.as_slice() {
            [verb, words @ ..] if *verb == "schema" => {
                self.schema = schema_of(self.alloc, words)?;
                Some(())
            }
            [verb] => self.answer_alone(verb),
            [verb, key] => {
                let key = bytes_of(self.alloc, &[*key]).ok()?;
                self.answer_of_key(verb, key)
            }
            [verb, key, row] => {
                let key = bytes_of(self.alloc, &[*key]).ok()?;
                let row = bytes_of(self.alloc, &[*row]).ok()?;
                self.answer_of_row(verb, key, row)
            }
            _ => None,
        }
    }

    // `fresh` takes all rows and changes away, and `rows` shows the rows in their order.
    fn answer_alone(&mut self, verb: &str) -> Option<()> {
        match verb {
            "fresh" => {
                self.rows = OrderedRows::new(self.alloc);
                self.overlay = Overlay::new(self.alloc);
                Some(())
            }
            "rows" => tell_rows(self.alloc, &self.rows, &mut self.written),
            _ => None,
        }
    }

    fn answer_of_key(&mut self, verb: &str, key: Vec<u8>) -> Option<()> {
        match verb {
            "form" => return self.tell_form(&key),
            "remove" => self.rows.remove(&key),
            "release" => self.rows.release(&key),
            _ => return self.look_at_key(verb, &key),
        }
        Some(())
    }

    // `from` counts the rows from a key on, `get` shows its row, and `room` says whether there is room for one.
    fn look_at_key(&mut self, verb: &str, key: &Vec<u8>) -> Option<()> {
        let has_room = self.rows.has_room(key);
        match verb {
            "from" => tell_count_from(self.alloc, &self.rows, key, &mut self.written),
            "get" => tell_row(self.alloc, self.rows.get(key), &mut self.written),
            "room" => say(&mut self.written, if has_room { "room" } else { "no room" }),
            _ => None,
        }
    }

    // `change` puts a row to the overlay, or takes it out where it has no bytes; `place` and `say` do what `put` and `change` do,
    // without room made before; `found` shows the row of a key where the pages have this row of it.
    fn answer_of_row(&mut self, verb: &str, key: Vec<u8>, row: Vec<u8>) -> Option<()> {
        match verb {
            "put" => put(self.alloc, &mut self.rows, &key, row),
            "place" => self.rows.put(key, row).ok(),
            "change" => change(self.alloc, &mut self.overlay, &key, row),
            "say" => say_change(self.alloc, &mut self.overlay, key, row),
            "found" => {
                let base: Option<&[u8]> = if row.is_empty() { None } else { Some(&row) };
                tell_row(self.alloc, self.overlay.get(&key, base), &mut self.written)
            }
            _ => None,
        }
    }

    // The form of a key, and whether it stands above that of the key before.
    fn tell_form(&mut self, key: &[u8]) -> Option<()> {
        let Some(schema) = &self.schema else {
            return None;
        };
        if !is_key(schema, key) {
            return say(&mut self.written, "no key");
        }
        let form = sort_form(self.alloc, schema, key).ok()?;
        tell(self.alloc, &mut self.written, "form", &form)?;
        let is_above = self.form.as_slice() < form.as_slice();
        self.form = form;
        say(
            &mut self.written,
            if is_above {
                "above the one before"
            } else {
                "not above"
            },
        )
    }
}
