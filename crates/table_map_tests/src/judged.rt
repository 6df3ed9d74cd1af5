//! Pages of rows of one INTEGER, and by which schemas they were judged.

use drda_disk::Disk;
use row_pages::{JudgedPage, PageBuilder, PageFault, PageKind, Pager};
use row_values::Schema;
use std::alloc::{AllocError, Global};
use std::sync::Arc;
use test_rows::schema_of;

// The schemas that are asked for.
const WORDS: [&str; 3] = ["integer", "smallint", "renamed"];

// The schema of one key column that a word means, if it means one: an INTEGER, a SMALLINT, or an INTEGER of another name.
fn schema_named(alloc: Global, word: &str) -> Option<Schema> {
    let column = match word {
        "integer" => "K,INTEGER,not,0",
        "smallint" => "K,SMALLINT,not,0",
        "renamed" => "L,INTEGER,not,0",
        _ => return None,
    };
    schema_of(alloc, &[column, "0"])?
}

// The same, to be shared.
fn shared(alloc: Global, word: &str) -> Result<Option<Arc<Schema>>, AllocError> {
    match schema_named(alloc, word) {
        Some(schema) => Ok(Some(Arc::new(alloc, schema)?)),
        None => Ok(None),
    }
}

/// A page of rows of an INTEGER each, with these keys.
pub fn keys_page(alloc: Global, keys: &str) -> Result<Vec<u8>, AllocError> {
    let mut page = PageBuilder::new(alloc, PageKind::Rows)?;
    for word in keys.split_ascii_whitespace() {
        let [a, b, c, d] = word.parse::<i32>().unwrap_or(0).to_be_bytes();
        page.try_push(&[0, a, b, c, d]);
    }
    Ok(page.finish())
}

/// Tells of the page at an offset, judged by a schema, how many rows it has, and which schemas' marks it carries then. Whether it is a page.
pub fn tell_marks<D: Disk>(
    alloc: Global,
    pager: &mut Pager<D>,
    at: usize,
    word: &str,
    out: &mut String,
) -> Result<bool, AllocError> {
    if at > pager.size() || pager.size() - at < 8_192 {
        return Ok(false);
    }
    let by = shared(alloc, word)?;
    match pager.judged_page(alloc, at, by.as_ref()) {
        Ok(page) => tell_page(alloc, page, out),
        Err(PageFault::NoMemory) => Err(AllocError),
        Err(fault) => {
            writeln!(out, "  {fault:?}")?;
            Ok(false)
        }
    }
}

// Tells how many rows a page has, and the schemas whose marks it carries.
fn tell_page(alloc: Global, page: &JudgedPage, out: &mut String) -> Result<bool, AllocError> {
    let count = page.page().len();
    write!(out, "  {count} rows, marked:")?;
    for word in WORDS {
        if is_marked(alloc, page, word) {
            write!(out, " {word}")?;
        }
    }
    write!(out, ",")?;
    Ok(true)
}

// Whether a page carries the mark of a schema.
fn is_marked(alloc: Global, page: &JudgedPage, word: &str) -> bool {
    match schema_named(alloc, word) {
        Some(schema) => page.is_marked(&schema),
        None => false,
    }
}

/// Tells of each row of the page at an offset, which is not judged for that, whether it is known to be one of a schema.
pub fn tell_known<D: Disk>(
    alloc: Global,
    pager: &mut Pager<D>,
    at: usize,
    word: &str,
    out: &mut String,
) -> Result<(), AllocError> {
    let Some(schema) = schema_named(alloc, word) else {
        return Ok(());
    };
    if at > pager.size() || pager.size() - at < 8_192 {
        return Ok(());
    }
    match pager.judged_page(alloc, at, None) {
        Ok(page) => tell_rows(page, &schema, out),
        Err(PageFault::NoMemory) => Err(AllocError),
        Err(fault) => writeln!(out, "  {fault:?}"),
    }
}

// Tells of each row of a page whether it is known to be one of the schema.
fn tell_rows(page: &JudgedPage, schema: &Schema, out: &mut String) -> Result<(), AllocError> {
    let kept = page.page();
    write!(out, "  known:")?;
    for i in 0..kept.len() {
        let is_row = page.is_row(schema, kept.row(i));
        write!(out, " {is_row}")?;
    }
    writeln!(out)
}
