//! What is written of answers.

use fdoca::{are_places, write_descriptor, write_row};
use row_values::{RowRef, Schema};
use std::alloc::Global;
use test_rows::{say, tell};

/// Tells whether these are places of the schema's columns.
pub fn push_places(out: &mut Vec<u8>, schema: &Schema, places: &[u8]) -> Option<()> {
    say(
        out,
        if are_places(schema, places) {
            "places"
        } else {
            "none"
        },
    )
}

/// Tells what is written of a row behind 07: the description of these places, and the values there.
pub fn push_answer(
    alloc: Global,
    out: &mut Vec<u8>,
    schema: &Schema,
    bytes: &[u8],
    places: &[u8],
) -> Option<()> {
    if places.len() > 84 || !are_places(schema, places) {
        return say(out, "none");
    }
    let Ok(row) = RowRef::parse(schema, bytes) else {
        return say(out, "no row");
    };
    let mut written = Vec::new(alloc);
    written.push(7).ok()?;
    write_descriptor(&mut written, schema, places).ok()?;
    write_row(&mut written, &row, places).ok()?;
    tell(alloc, out, "written", &written)
}
