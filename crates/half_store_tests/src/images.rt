//! Calls of a store whose conditions are tested. One that does not hold shows as a fault of the device.
ghost use Rattle.std.specs.Prelude.{◌≤◌, IsTrue};
ghost use Rattle.drda_disk.specs.Region.{end_of};

use drda_disk::{Disk, DiskError, DiskFault, PAGE_BYTES, Region, WriteError, read_bytes};
use half_store::{Active, ImageWriter, begin_image, open};
use std::alloc::{AllocError, Global};

/// Writes bytes to a disk.
pub fn put<D: Disk>(disk: &mut D, at: usize, bytes: &[u8]) -> Result<(), DiskFault> {
    if at > disk.size() || bytes.len() > disk.size() - at {
        return Err(DiskFault);
    }
    disk.write_at(at, bytes)
}

// The byte of which all pages of the half that counts consist, if there are pages and they do.
fn filling<D: Disk>(alloc: Global, disk: &mut D, active: &Active) -> Option<u8> {
    let length = PAGE_BYTES * active.pages as usize;
    let at = active.region.at.checked_sub(length)?;
    if at > disk.size() || length > disk.size() - at {
        return None;
    }
    let pages = read_bytes(alloc, disk, at, length).ok()?;
    let byte = pages.first().copied()?;
    if pages.iter().all(|it| *it == byte) {
        Some(byte)
    } else {
        None
    }
}

/// What a disk opens as, and what its pages are filled with; or why it does not open.
pub fn opened<D: Disk>(alloc: Global, disk: &mut D) -> Result<String, AllocError> {
    match open(alloc, disk) {
        Ok(active) => {
            let filling = filling(alloc, disk, &active);
            format!(in alloc; "{active:?}, filled with {filling:?}")
        }
        Err(fault) => format!(in alloc; "{fault:?}"),
    }
}

/// An image that is written, and the half from which it was begun.
#[derive(Drop)]
pub struct Image {
    active: Active,
    writer: ImageWriter,
}

/// Opens a store, and begins to write its other half. Tells why that is not done.
pub fn begin<D: Disk>(
    alloc: Global,
    disk: &mut D,
    out: &mut String,
) -> Result<Option<Image>, AllocError> {
    let active = match open(alloc, disk) {
        Ok(active) => active,
        Err(fault) => {
            writeln!(out, "  not opened: {fault:?}")?;
            return Ok(None);
        }
    };
    match begin_image(disk, &active) {
        Ok(writer) => Ok(Some(Image { active, writer })),
        Err(fault) => {
            writeln!(out, "  not begun: {fault:?}")?;
            Ok(None)
        }
    }
}

fn lies_on(region: Region, size: usize) -> bool
    ensures { IsTrue result → end_of region ≤ size }
{
    region.at <= size && region.length <= size - region.at
}

fn write_page<D: Disk>(
    disk: &mut D,
    writer: &mut ImageWriter,
    page: &[u8],
) -> Result<(), WriteError> {
    if page.len() != PAGE_BYTES || !lies_on(writer.finish_pages(), disk.size()) {
        return Err(WriteError::DeviceFailed);
    }
    writer.page(disk, page)
}

fn switch<D: Disk>(
    alloc: Global,
    disk: &mut D,
    writer: ImageWriter,
    active: &Active,
) -> Result<Active, DiskError> {
    let pages = writer.pages();
    if pages == 0 || !lies_on(writer.finish_pages(), disk.size()) {
        return Err(DiskError::DeviceFailed);
    }
    writer.switch(alloc, disk, active, pages - 1, 1)
}

impl Image {
    /// Writes so many pages that are filled with a byte, up to the first that is refused. Tells how many the image has then, and the
    /// answer.
    pub fn write<D: Disk>(
        &mut self,
        alloc: Global,
        disk: &mut D,
        (byte, count): (u8, usize),
        out: &mut String,
    ) -> Result<(), AllocError> {
        let page = vec![in alloc; byte; PAGE_BYTES]?;
        let mut done = Ok(());
        for _ in 0..count {
            done = write_page(disk, &mut self.writer, &page);
            if done.is_err() {
                break;
            }
        }
        let pages = self.writer.pages();
        writeln!(out, "  {pages} pages, {done:?}")
    }

    /// Switches to the image, whose last page is its catalogue. Tells which half counts then, or why that is not known.
    pub fn switch<D: Disk>(
        self,
        alloc: Global,
        disk: &mut D,
        out: &mut String,
    ) -> Result<(), AllocError> {
        let Image { active, writer } = self;
        match switch(alloc, disk, writer, &active) {
            Ok(active) => writeln!(out, "  {active:?}"),
            Err(fault) => writeln!(out, "  {fault:?}"),
        }
    }
}
