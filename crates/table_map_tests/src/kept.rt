//! Pages that are read from a disk, and kept.

use crate::judged::{keys_page, tell_known, tell_marks};
use crate::pages::{filled, number, tell_judged};
use drda_disk::{Disk, FuseDisk, MemDisk};
use row_pages::{KeptPage, PageBuilder, PageFault, PageKind, Pager, Pushed, read_page};
use std::alloc::{AllocError, Global};

/// A disk that counts its calls, with the pages of it that are kept.
pub type Counted = Pager<FuseDisk<MemDisk>>;

// Writes bytes at an offset, where the disk has room for them.
fn write<D: Disk>(disk: &mut D, at: usize, bytes: &[u8]) {
    if at <= disk.size() && bytes.len() <= disk.size() - at {
        let _ = disk.write_at(at, bytes);
    }
}

// Tells of the page at an offset how many rows it has, the length of the first one, and how many of them are found by their places.
fn tell_at<D: Disk>(
    alloc: Global,
    pager: &mut Pager<D>,
    at: usize,
    out: &mut String,
) -> Result<bool, AllocError> {
    if at > pager.size() || pager.size() - at < 8_192 {
        return Ok(false);
    }
    match pager.page(alloc, at) {
        Ok(page) => tell_kept(page, out),
        Err(PageFault::NoMemory) => Err(AllocError),
        Err(fault) => {
            writeln!(out, "  {fault:?}")?;
            Ok(false)
        }
    }
}

fn tell_kept(page: &KeptPage, out: &mut String) -> Result<bool, AllocError> {
    let count = page.len();
    let mut place = 0_usize;
    let mut same = 0_usize;
    let mut first = 0_usize;
    for row in page.page_ref().rows() {
        if place == 0 {
            first = row.len();
        }
        if place < page.len() && page.row(place) == row {
            same = same.wrapping_add(1);
        }
        place = place.wrapping_add(1);
    }
    write!(
        out,
        "  {count} rows, {first} bytes, {place} found, {same} at their places\n "
    )?;
    Ok(true)
}

// Pushes rows of these lengths behind those of a page. Gives how many were added.
fn push_rows(alloc: Global, page: &mut PageBuilder, lengths: &str) -> Result<usize, AllocError> {
    let mut added = 0_usize;
    for word in lengths.split_ascii_whitespace() {
        let row = vec![in alloc; 7_u8; number(word)]?;
        if page.try_push(&row) == Pushed::Added {
            added = added.wrapping_add(1);
        }
    }
    Ok(added)
}

// Goes on with a page in place of one of a catalogue with a row of one byte, and pushes rows of these lengths behind its rows. Tells both
// pages, how many bytes they had left, and how many rows were added.
fn tell_replaced(
    alloc: Global,
    kept: KeptPage,
    lengths: &str,
    out: &mut String,
) -> Result<(), AllocError> {
    let mut page = PageBuilder::new(alloc, PageKind::Catalogue)?;
    page.try_push(&[9]);
    let before = page.room();
    let former = page.replace(kept);
    let after = page.room();
    let added = push_rows(alloc, &mut page, lengths)?;
    writeln!(out, "  {before} bytes left, then {after}, {added} added")?;
    tell_both(&former.finish(), &page.finish(), out)
}

fn tell_both(former: &[u8], page: &[u8], out: &mut String) -> Result<(), AllocError> {
    tell_judged(former, out)?;
    tell_judged(page, out)
}

// Tells what the page at an offset is once rows of these lengths are pushed behind its rows.
fn tell_refilled<D: Disk>(
    alloc: Global,
    pager: &mut Pager<D>,
    at: usize,
    lengths: &str,
    out: &mut String,
) -> Result<(), AllocError> {
    if at > pager.size() || pager.size() - at < 8_192 {
        return Ok(());
    }
    match read_page(alloc, pager, at) {
        Ok(kept) => tell_replaced(alloc, kept, lengths, out),
        Err(PageFault::NoMemory) => Err(AllocError),
        Err(fault) => writeln!(out, "  {fault:?}"),
    }
}

// Tells of the page at an offset what it has, or which schemas' marks it carries; and whether it was read, or kept.
fn tell_counted(
    alloc: Global,
    pager: &mut Counted,
    verb: &str,
    (at, word): (usize, &str),
    out: &mut String,
) -> Result<(), AllocError> {
    let calls = pager.disk().calls();
    let is_there = match verb {
        "at" => tell_at(alloc, pager, at, out)?,
        _ => tell_marks(alloc, pager, at, word, out)?,
    };
    if !is_there {
        return Ok(());
    }
    let how = if pager.disk().calls() == calls {
        "kept"
    } else {
        "read"
    };
    writeln!(out, " {how}")
}

/// Tells what comes of pages of the disk. `write` writes one with rows of these lengths at an offset, `keys` one with rows of these keys, and
/// `byte` a byte; `forget` lets all go that are kept. `at` and `judged` look at one, `known` at its rows, and `refill` pushes rows behind its own.
pub fn answer_of_disk(
    alloc: Global,
    pager: &mut Counted,
    verb: &str,
    rest: &str,
    out: &mut String,
) -> Result<(), AllocError> {
    let (at, asked) = rest.split_once(' ').unwrap_or((rest, ""));
    let at = number(at);
    match verb {
        "write" => {
            let (page, _) = filled(alloc, PageKind::Rows, asked)?;
            write(pager, at, &page);
            Ok(())
        }
        "keys" => {
            let page = keys_page(alloc, asked)?;
            write(pager, at, &page);
            Ok(())
        }
        "byte" => {
            write(pager, at, &[0]);
            Ok(())
        }
        "forget" => {
            pager.forget();
            Ok(())
        }
        "refill" => tell_refilled(alloc, pager, at, asked, out),
        "known" => tell_known(alloc, pager, at, asked, out),
        _ => tell_counted(alloc, pager, verb, (at, asked), out),
    }
}
