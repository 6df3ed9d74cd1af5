//! Images into which rows or a catalogue are written.
ghost use Rattle.std.specs.Prelude.{◌+◌, ◌≤◌, length};
ghost use Rattle.half_store.specs.Writing.{from_of, half_bytes_of};

use crate::catalogues::{list, tell_catalogue};
use crate::keys::FirstByte;
use crate::pages::{rows_of, table_with, tell_rows};
use crate::stores::{Run, STORE_BYTES, new_store, number};
use checkpoint_writer::{ImageError, merge_into, write_rows};
use drda_disk::{Disk, DiskError, read_bytes};
use half_store::{Active, ImageWriter, begin_image};
use row_pages::{PageCache, Pager};
use std::alloc::{AllocError, Global};

// Writes the rows of these pages with these changes.
fn merge<D: Disk>(
    alloc: Global,
    pager: &mut Pager<D>,
    image: &mut ImageWriter,
    base: Run,
    changes: &str,
) -> Result<(), ImageError>
    requires { from_of image.old + half_bytes_of image.old ≤ length (D.life pager.old).seen }
{
    let table = table_with(alloc, pager, base, changes)?;
    merge_into(alloc, &FirstByte, &table, pager, image)?;
    Ok(())
}

// Writes rows that lie in memory.
fn lay<D: Disk>(
    alloc: Global,
    pager: &mut Pager<D>,
    image: &mut ImageWriter,
    changes: &str,
) -> Result<(), ImageError>
    requires { from_of image.old + half_bytes_of image.old ≤ length (D.life pager.old).seen }
{
    let rows = rows_of(alloc, changes)?;
    write_rows(alloc, rows.rows(), pager, image)?;
    Ok(())
}

// Writes into the half that is not active: the rows of these pages with these changes, rows in memory, or a catalogue. Gives the pages
// there.
fn written<D: Disk>(
    alloc: Global,
    pager: &mut Pager<D>,
    active: &Active,
    base: Run,
    (verb, changes): (&str, &str),
) -> Result<Run, ImageError> {
    pager.forget();
    if pager.size() != STORE_BYTES {
        return Err(ImageError::Damaged);
    }
    let mut image = begin_image(pager, active)?;
    let at = image.finish_pages().at;
    let done = match verb {
        "merge" => merge(alloc, pager, &mut image, base, changes),
        "memory" => lay(alloc, pager, &mut image, changes),
        _ => list(alloc, pager, &mut image),
    };
    done?;
    Ok(Run {
        at,
        pages: image.pages() as usize,
    })
}

// Tells how many pages there are once it is written, and what is read of them. Where it is not, the base stays.
fn tell_step<D: Disk>(
    alloc: Global,
    pager: &mut Pager<D>,
    active: &Active,
    base: &mut Run,
    (verb, step): (&str, &str),
    out: &mut String,
) -> Result<(), AllocError> {
    match written(alloc, pager, active, *base, (verb, step)) {
        Ok(run) => *base = run,
        Err(fault) => return writeln!(out, "  {fault:?}"),
    }
    let pages = base.pages;
    writeln!(out, "  {pages} pages")?;
    pager.forget();
    match verb {
        "catalogue" => tell_catalogue(alloc, pager, *base, step, out),
        _ => tell_rows(alloc, pager, *base, out),
    }
}

/// Tells what comes of writing, over a device that fails behind so many calls: how many pages there are then, and what is read of them.
/// Behind each slash it is done anew, over the pages before, into the other half.
pub fn tell_written(
    alloc: Global,
    verb: &str,
    asked: &str,
    out: &mut String,
) -> Result<(), AllocError> {
    let (calls, steps) = asked.split_once(' ').unwrap_or((asked, ""));
    let cache = PageCache::new(alloc, 2)?;
    let (disk, mut active) = new_store(alloc, number(calls))?;
    let mut pager = Pager::over(disk, cache);
    let mut base = Run { at: 0, pages: 0 };
    let mut done = Ok(());
    for step in steps.split('/') {
        let asked = (verb, step);
        done = tell_step(alloc, &mut pager, &active, &mut base, asked, out);
        if done.is_err() {
            break;
        }
        active.half = active.half.other();
    }
    done
}

// The bytes of pages, where the disk has them.
fn bytes_of<D: Disk>(alloc: Global, disk: &mut D, run: Run) -> Result<Option<Vec<u8>>, AllocError> {
    if run.pages > 200 || run.at > STORE_BYTES || run.at + 8_192 * run.pages > disk.size() {
        return Ok(None);
    }
    match read_bytes(alloc, disk, run.at, 8_192 * run.pages) {
        Ok(bytes) => Ok(Some(bytes)),
        Err(DiskError::NoMemory) => Err(AllocError),
        Err(_) => Ok(None),
    }
}

// Tells whether pages have the bytes of others.
fn tell_same<D: Disk>(
    alloc: Global,
    disk: &mut D,
    first: Run,
    second: Run,
    out: &mut String,
) -> Result<(), AllocError> {
    let pages = second.pages;
    let one = bytes_of(alloc, disk, first)?;
    let other = bytes_of(alloc, disk, second)?;
    if are_same(&one, &other) {
        writeln!(out, "  {pages} pages of the same bytes")
    } else {
        writeln!(out, "  {pages} pages of other bytes")
    }
}

// Whether both are there, and the same.
fn are_same(one: &Option<Vec<u8>>, other: &Option<Vec<u8>>) -> bool {
    match one {
        Some(one) => match other {
            Some(other) => one.as_slice() == other.as_slice(),
            None => false,
        },
        None => false,
    }
}

/// Lays rows one by one, and then copies their pages into the other half: tells whether these have the same bytes.
pub fn tell_copied(alloc: Global, changes: &str, out: &mut String) -> Result<(), AllocError> {
    let cache = PageCache::new(alloc, 2)?;
    let (disk, mut active) = new_store(alloc, u64::MAX)?;
    let mut pager = Pager::over(disk, cache);
    let none = Run { at: 0, pages: 0 };
    let laid = match written(alloc, &mut pager, &active, none, ("memory", changes)) {
        Ok(run) => run,
        Err(fault) => return writeln!(out, "  {fault:?}"),
    };
    active.half = active.half.other();
    match written(alloc, &mut pager, &active, laid, ("merge", "")) {
        Ok(copied) => tell_same(alloc, &mut pager, laid, copied, out),
        Err(fault) => writeln!(out, "  {fault:?}"),
    }
}
