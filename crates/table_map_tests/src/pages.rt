//! Pages that are made, and pages that bytes are.

use row_pages::{PageBuilder, PageCount, PageKind, PageRef, Pushed};
use std::alloc::{AllocError, Global};

/// A number, which stands alone.
pub fn number(word: &str) -> usize {
    word.parse::<usize>().unwrap_or(0)
}

/// A page of rows of these lengths, each filled with its number, from 0 on, and how many of them were added.
pub fn filled(
    alloc: Global,
    kind: PageKind,
    lengths: &str,
) -> Result<(Vec<u8>, usize), AllocError> {
    let mut page = PageBuilder::new(alloc, kind)?;
    let mut added = 0_usize;
    let mut count = 0_u8;
    for word in lengths.split_ascii_whitespace() {
        let row = vec![in alloc; count; number(word)]?;
        count = count.wrapping_add(1);
        if page.try_push(&row) == Pushed::Added {
            added = added.wrapping_add(1);
        }
    }
    Ok((page.finish(), added))
}

/// Tells what page the bytes are, how many rows it has, and of how many bytes in all.
pub fn tell_judged(bytes: &[u8], out: &mut String) -> Result<(), AllocError> {
    let page = match PageRef::parse(bytes) {
        Ok(page) => page,
        Err(_) => return writeln!(out, "  no page"),
    };
    let mut count = 0_usize;
    let mut length = 0_usize;
    for row in page.rows() {
        count = count.wrapping_add(1);
        length = length.wrapping_add(row.len());
    }
    let kind = page.kind();
    writeln!(out, "  {kind:?}, {count} of {length} bytes")
}

// Tells how many rows of these lengths were added to a page, how many bytes it has, and what page these are.
fn tell_page(alloc: Global, lengths: &str, out: &mut String) -> Result<(), AllocError> {
    let (bytes, added) = filled(alloc, PageKind::Rows, lengths)?;
    let size = bytes.len();
    writeln!(out, "  {added} added, {size} bytes")?;
    tell_judged(&bytes, out)
}

// Tells the bytes of a catalogue's page with rows of these lengths that are not zero, each with its place, and what page all of them are.
fn tell_bytes(alloc: Global, lengths: &str, out: &mut String) -> Result<(), AllocError> {
    let (bytes, _) = filled(alloc, PageKind::Catalogue, lengths)?;
    for (place, byte) in bytes.iter().enumerate() {
        if *byte != 0 {
            writeln!(out, "  {place}: {byte}")?;
        }
    }
    tell_judged(&bytes, out)
}

// Tells what page the bytes of a page of two rows, of 1 and 2 bytes, are where one of them, at a place, is another; or the first ones of
// them, so many.
fn tell_changed(alloc: Global, asked: &str, out: &mut String) -> Result<(), AllocError> {
    let (mut bytes, _) = filled(alloc, PageKind::Rows, "1 2")?;
    match asked.split_once(' ') {
        Some((at, byte)) => {
            if let Some(place) = bytes.get_mut(number(at)) {
                *place = byte.parse::<u8>().unwrap_or(0);
            }
        }
        None => bytes.truncate(number(asked)),
    }
    tell_judged(&bytes, out)
}

// Lays a row of this length behind those of a page, and counts it. Where a new page begins with it, tells what page the one before it is.
fn lay_row(
    alloc: Global,
    page: &mut PageBuilder,
    count: &mut PageCount,
    length: usize,
    out: &mut String,
) -> Result<(), AllocError> {
    let row = vec![in alloc; 7_u8; length]?;
    if row.len() > 8_187 {
        return Ok(());
    }
    count.push(&row);
    match page.lay(alloc, &row)? {
        Some(bytes) => tell_judged(&bytes, out),
        None => Ok(()),
    }
}

// Tells what page each one is into which rows of these lengths are laid, and how many pages were counted for them.
fn tell_laid(alloc: Global, lengths: &str, out: &mut String) -> Result<(), AllocError> {
    let mut page = PageBuilder::new(alloc, PageKind::Rows)?;
    let mut count = PageCount::new();
    for word in lengths.split_ascii_whitespace() {
        lay_row(alloc, &mut page, &mut count, number(word), out)?;
    }
    let counted = count.pages();
    tell_judged(&page.finish(), out)?;
    writeln!(out, "  {counted} counted")
}

/// Tells what comes of rows of these lengths: a page is filled with them, or shown byte by byte, or laid with others behind it; or of a page
/// whose bytes are changed.
pub fn answer_of_page(
    alloc: Global,
    verb: &str,
    rest: &str,
    out: &mut String,
) -> Result<(), AllocError> {
    match verb {
        "fill" => tell_page(alloc, rest, out),
        "shown" => tell_bytes(alloc, rest, out),
        "changed" => tell_changed(alloc, rest, out),
        _ => tell_laid(alloc, rest, out),
    }
}
