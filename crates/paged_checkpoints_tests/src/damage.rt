//! Checkpoints with damaged pages.
use crate::changes::Step;
use crate::held::Held;
use crate::stores::{commit, open_held, written};
use checkpoint_writer::ImageError;
use drda_disk::{Disk, MemDisk, PAGE_BYTES};
use row_pages::{PageCache, Pager};
use std::alloc::{AllocError, Global};
use std::test::Fail;
use store_check::CheckError;

/// The offset of the second half's first page.
const SECOND_AT: usize = 1_056_768;

/// Three pages of rows, one page of rows, and one page of their catalogue.
const STEPS: [Step; 4] = [
    Step::Create("A"),
    Step::Put("A", (-5, 10, 2_000)),
    Step::Create("T_2"),
    Step::Put("T_2", (1, 2, 3)),
];

// Puts a byte into a page of the second half.
fn put(disk: &mut MemDisk, page: usize, at: usize, byte: u8) {
    let at = SECOND_AT
        .saturating_add(PAGE_BYTES.saturating_mul(page))
        .saturating_add(at);
    if at < disk.size() {
        let _ = disk.write_at(at, &[byte]);
    }
}

// A store with these bytes in the pages of its checkpoint.
fn damaged(alloc: Global, bytes: &[(usize, usize, u8)]) -> Result<MemDisk, Fail> {
    let mut disk = written(alloc, &STEPS)?;
    for (page, at, byte) in bytes {
        put(&mut disk, *page, *at, *byte);
    }
    Ok(disk)
}

// Why a store is not opened, but for want of memory.
fn fault_of(alloc: Global, disk: MemDisk) -> Result<Option<CheckError>, Fail> {
    let cache = PageCache::new(alloc, 2)?;
    match Held::open(alloc, Pager::over(disk, cache)) {
        Ok(_) => Ok(None),
        Err(CheckError::NoMemory) => Err(AllocError.into()),
        Err(error) => Ok(Some(error)),
    }
}

/// Bytes that are put into pages, by the page's number and the place, and the first bad page then.
const TABLE: [(&'static [(usize, usize, u8)], Option<usize>); 9] = [
    (&[(0, 0, 1)], Some(0)),
    (&[(2, 2, 9)], Some(2)),
    (&[(3, 0, 0)], Some(3)),
    (&[(4, 0, 2)], Some(4)),
    // The first bad one by number counts, of the catalogue's and of the others.
    (&[(3, 0, 0), (1, 0, 0)], Some(1)),
    (&[(0, 0, 0), (4, 0, 0)], Some(0)),
    // A key that does not come behind the one in front of it, over the border of two pages too.
    (&[(1, 7, 0)], Some(1)),
    (&[(3, 18, 0)], Some(3)),
    // Another byte of a row is no damage.
    (&[(3, 11, 9)], None),
];

#[test]
fn a_damaged_page_is_told_by_its_offset(rt: HostRuntime) -> Result<(), Fail> {
    for (row, (bytes, page)) in TABLE.iter().enumerate() {
        let want = match page {
            Some(page) => Some(CheckError::Damaged {
                at: SECOND_AT.saturating_add(PAGE_BYTES.saturating_mul(*page)),
            }),
            None => None,
        };
        assert!(rt;
            fault_of(rt.alloc(), damaged(rt.alloc(), bytes)?)? == want,
            "{row}"
        );
    }
    Ok(())
}

// What is told of a checkpoint of tables one of whose pages was damaged once it was opened, and why the store
// is not opened then.
fn over_damage(
    alloc: Global,
    page: usize,
) -> Result<(Option<ImageError>, Option<CheckError>), Fail> {
    let mut held = open_held(alloc, written(alloc, &STEPS)?)?;
    commit(alloc, &mut held, &[Step::Put("A", (0, 1, 1))])?;
    held.damage(SECOND_AT.saturating_add(PAGE_BYTES.saturating_mul(page)));
    let told = held.checkpoint(alloc, 0).err();
    Ok((told, fault_of(alloc, held.into_disk())?))
}

#[test]
fn what_is_damaged_is_not_written_anew(rt: HostRuntime) -> Result<(), Fail> {
    for page in [0_usize, 2, 3] {
        let (told, fault) = over_damage(rt.alloc(), page)?;
        let at = SECOND_AT.saturating_add(PAGE_BYTES.saturating_mul(page));
        assert!(rt; told == Some(ImageError::Damaged), "{page}");
        assert!(rt; fault == Some(CheckError::Damaged { at }), "{page}");
    }
    Ok(())
}
