//! Stores that are made by steps, and what their tables show beside plain ones.

use crate::changes::{Step, changes_of};
use crate::held::{Held, STORE_BYTES};
use drda_disk::{Disk, MemDisk};
use half_store::format;
use row_pages::{PageCache, Pager};
use std::alloc::Global;
use std::test::Fail;
use tables::{PlainView, Rows, TableView};

/// The names of all tables that steps create.
const NAMES: [&str; 4] = ["A", "B", "T_2", "U"];

/// An empty store.
pub fn new_store(alloc: Global) -> Result<MemDisk, Fail> {
    let mut disk = MemDisk::new(alloc, STORE_BYTES)?;
    format(alloc, &mut disk, "TEST")?;
    Ok(disk)
}

/// The tables of a disk's store, of which few pages are kept.
pub fn open_held<D: Disk + Drop>(alloc: Global, disk: D) -> Result<Held<D>, Fail> {
    let cache = PageCache::new(alloc, 2)?;
    Ok(Held::open(alloc, Pager::over(disk, cache))?)
}

/// Makes the changes of steps.
pub fn commit<D: Disk + Drop>(
    alloc: Global,
    held: &mut Held<D>,
    steps: &[Step],
) -> Result<(), Fail> {
    for step in steps {
        held.commit(alloc, changes_of(alloc, *step)?)?;
    }
    Ok(())
}

/// Makes the changes of steps to plain tables.
pub fn apply(alloc: Global, plain: &mut PlainView, steps: &[Step]) -> Result<(), Fail> {
    for step in steps {
        for change in changes_of(alloc, *step)? {
            plain.apply(alloc, change)?;
        }
    }
    Ok(())
}

/// The plain tables that steps make.
pub fn plain_of(alloc: Global, steps: &[Step]) -> Result<PlainView, Fail> {
    let mut plain = PlainView::new(alloc);
    apply(alloc, &mut plain, steps)?;
    Ok(plain)
}

/// A disk with a store anew, and a checkpoint of the tables that steps make.
pub fn again(alloc: Global, disk: MemDisk, steps: &[Step]) -> Result<MemDisk, Fail> {
    let mut disk = disk;
    format(alloc, &mut disk, "TEST")?;
    let mut held = open_held(alloc, disk)?;
    commit(alloc, &mut held, steps)?;
    held.checkpoint(alloc, 0)?;
    Ok(held.into_disk())
}

/// A store with a checkpoint of the tables that steps make.
pub fn written(alloc: Global, steps: &[Step]) -> Result<MemDisk, Fail> {
    again(alloc, new_store(alloc)?, steps)
}

fn are_alike(here: &Rows, there: &Rows) -> bool {
    if here.len() != there.len() {
        return false;
    }
    for i in 0..here.len() {
        if here.row(i)[..] != there.row(i)[..] {
            return false;
        }
    }
    true
}

/// Whether the tables show what plain ones do.
pub fn shows<D: Disk + Drop>(
    alloc: Global,
    held: &mut Held<D>,
    plain: &mut PlainView,
) -> Result<bool, Fail> {
    for name in NAMES {
        let here = held.rows(alloc, name)?;
        if !are_alike(&here, &plain.scan(alloc, name)?) {
            return Ok(false);
        }
    }
    Ok(held.count() == plain.tables()?)
}
