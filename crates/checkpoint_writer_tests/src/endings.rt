//! Images that become the active half, with records behind their pages.
ghost use Rattle.std.specs.Prelude.{◌+◌, ◌≤◌, IfOk, IsTrue, length};
ghost use Rattle.drda_disk.specs.Region.{end_of};
ghost use Rattle.half_store.specs.Writing.{from_of, half_bytes_of};

use crate::stores::{STORE_BYTES, new_store, numbers};
use checkpoint_writer::{ImageError, finish_image};
use drda_disk::{Disk, MemDisk, Region};
use half_store::{Active, ImageWriter, begin_image, open};
use std::alloc::{AllocError, Global};
use unit_journal::{Journal, Kind, Record};

// Two records, of three bytes and of none.
fn two_records(alloc: Global) -> Result<Vec<Record>, AllocError> {
    let mut records = Vec::new(alloc);
    for bytes in [&[1_u8, 2, 3] as &[u8], &[]] {
        let record = Record {
            at: 0,
            kind: Kind::Prepare,
            body: bytes.to_vec(alloc)?,
        };
        if records.push(record).is_err() {
            return Err(AllocError);
        }
    }
    Ok(records)
}

fn lies_on(region: Region, size: usize) -> bool
    ensures { IsTrue result → end_of region ≤ size }
{
    region.at <= size && region.length <= size - region.at
}

// An image in the half that is not active, with one page.
fn one_page<D: Disk>(
    alloc: Global,
    disk: &mut D,
    active: &Active,
) -> Result<ImageWriter, ImageError>
    ensures { IfOk result (λ image. from_of image + half_bytes_of image ≤ length (D.life disk.new).seen) }
{
    let page = vec![in alloc; 7_u8; 8_192]?;
    if disk.size() != STORE_BYTES || page.len() != 8_192 {
        return Err(ImageError::Damaged);
    }
    let mut image = begin_image(disk, active)?;
    image.page(disk, &page)?;
    Ok(image)
}

// Writes a page into the half that is not active, and behind it two records; then it is the active half, and so many bytes are held back.
fn switched<D: Disk>(
    alloc: Global,
    disk: &mut D,
    active: &Active,
    held: usize,
) -> Result<(), ImageError> {
    let records = two_records(alloc)?;
    let image = one_page(alloc, disk, active)?;
    finish_image(alloc, disk, image, active, 0, 0, &records, held)?;
    Ok(())
}

/// The generation of the active half, its pages, how many records its journal has, and the lengths of the first two.
type Found = (u64, u32, usize, [usize; 2]);

const OLD: Found = (1, 0, 0, [0, 0]);

const NEW: Found = (2, 1, 2, [3, 0]);

// What a store has, if it is one.
fn found(alloc: Global, disk: &mut MemDisk) -> Option<Found> {
    let active = open(alloc, disk).ok()?;
    let Ok(()) = disk.sync() else {
        return None;
    };
    let region = active.region;
    if region.length == 0 || region.length > STORE_BYTES || !lies_on(region, disk.size()) {
        return None;
    }
    let (_, records) = Journal::open(alloc, disk, region).ok()?;
    let mut lengths = [0_usize; 2];
    for (length, record) in lengths.iter_mut().zip(records.iter()) {
        *length = record.body.len();
    }
    Some((active.generation, active.pages, records.len(), lengths))
}

// What a switch is told, and what is found then; or only that this is the old half or the new one.
fn tell_found(
    done: Result<(), ImageError>,
    found: Option<Found>,
    may_be_either: bool,
    out: &mut String,
) -> Result<(), AllocError> {
    if may_be_either && (found == Some(OLD) || found == Some(NEW)) {
        return writeln!(out, "  {done:?}, the old half or the new one");
    }
    writeln!(out, "  {done:?}, {found:?}")
}

/// Tells what comes of a switch over a device that fails behind so many calls, with so many bytes held back, and what a crash of a pick
/// leaves then; in front of `either` only whether that is the old half or the new one.
pub fn tell_switched(alloc: Global, asked: &str, out: &mut String) -> Result<(), AllocError> {
    let [calls, held, pick] = numbers(asked);
    let (mut disk, active) = new_store(alloc, calls)?;
    let done = switched(alloc, &mut disk, &active, held as usize);
    let found = found(alloc, &mut disk.into_inner().after_crash(pick));
    tell_found(done, found, asked.ends_with("either"), out)
}
