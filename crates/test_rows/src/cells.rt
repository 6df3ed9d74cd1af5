//! Values as a line spells them: `null`, a number, `'abc` for a text, and digits behind t for the bytes of a text and behind x for bytes.

use row_values::Value;
use std::alloc::Global;
use test_bytes::bytes_of;

/// A value that owns what it is made of.
#[derive(Drop)]
pub enum Cell {
    Null,
    Number(i64),
    Text(Vec<u8>),
    Bytes(Vec<u8>),
}

fn cell_of(alloc: Global, word: &str) -> Option<Cell> {
    if word == "null" {
        return Some(Cell::Null);
    }
    match word.as_bytes() {
        [b'\'', text @ ..] => Some(Cell::Text(Vec::from_slice(alloc, text).ok()?)),
        [b't', ..] => Some(Cell::Text(bytes_of(alloc, &[word]).ok()?)),
        [b'x', ..] => Some(Cell::Bytes(bytes_of(alloc, &[word]).ok()?)),
        _ => Some(Cell::Number(word.parse::<i64>().ok()?)),
    }
}

/// The values that these words spell.
pub fn cells_of(alloc: Global, words: &[&str]) -> Option<Vec<Cell>> {
    let mut cells = Vec::new(alloc);
    for word in words {
        cells.push(cell_of(alloc, word)?).ok()?;
    }
    Some(cells)
}

fn value_of(cell: &Cell) -> Option<Value<'_>> {
    match cell {
        Cell::Null => Some(Value::Null),
        Cell::Number(number) => Some(Value::Number(*number)),
        Cell::Text(text) => match str::from_utf8(text) {
            Ok(text) => Some(Value::Text(text)),
            Err(_) => None,
        },
        Cell::Bytes(bytes) => Some(Value::Bytes(bytes)),
    }
}

/// The same, as values are lent.
pub fn values_of<'a>(alloc: Global, cells: &'a [Cell]) -> Option<Vec<Value<'a>>> {
    let mut values = Vec::new(alloc);
    for cell in cells {
        values.push(value_of(cell)?).ok()?;
    }
    Some(values)
}
