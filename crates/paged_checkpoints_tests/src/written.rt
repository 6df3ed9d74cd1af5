//! Checkpoints that are written and opened.
use crate::changes::Step;
use crate::held::Held;
use crate::stores::{apply, commit, new_store, open_held, plain_of, shows, written};
use checkpoint_writer::ImageError;
use drda_disk::{Full, MemDisk};
use row_pages::{PageCache, Pager};
use std::alloc::Global;
use std::test::Fail;
use tables::PlainView;

/// What is changed between one checkpoint and the next: rows put and taken out on pages and since, a table
/// more, one that loses all its rows, and nothing.
const STORY: [&'static [Step]; 7] = [
    &[],
    &[
        Step::Create("A"),
        Step::Create("T_2"),
        Step::Put("T_2", (-300, 600, 1)),
    ],
    &[
        Step::Put("A", (-5, 10, 2_000)),
        Step::Remove("T_2", (-300, 1, 0)),
    ],
    &[
        Step::Put("A", (0, 20, 3)),
        Step::Remove("A", (-2, 4, 0)),
        Step::Put("A", (1, 1, 7)),
    ],
    &[
        Step::Create("B"),
        Step::Put("B", (1, 1, 0)),
        Step::Remove("T_2", (-299, 599, 0)),
    ],
    &[],
    &[
        Step::Create("U"),
        Step::Remove("A", (-5, 30, 0)),
        Step::Put("B", (-9, 5, 2_000)),
    ],
];

fn opened(alloc: Global, disk: MemDisk, cached: usize) -> Result<Held<MemDisk>, Fail> {
    let cache = PageCache::new(alloc, cached.max(1))?;
    Ok(Held::open(alloc, Pager::over(disk, cache))?)
}

// Makes changes, and two checkpoints behind them; whether the tables show the same as plain ones when they are changed and over
// their new pages.
fn is_kept(
    alloc: Global,
    held: &mut Held<MemDisk>,
    plain: &mut PlainView,
    steps: &[Step],
) -> Result<bool, Fail> {
    commit(alloc, held, steps)?;
    apply(alloc, plain, steps)?;
    let is_changed = shows(alloc, held, plain)?;
    held.checkpoint(alloc, 0)?;
    let is_written = shows(alloc, held, plain)?;
    held.checkpoint(alloc, 100)?;
    Ok(is_changed && is_written)
}

// The same over a store that is opened, and its disk then.
fn reopened(
    alloc: Global,
    (disk, cached): (MemDisk, usize),
    plain: &mut PlainView,
    steps: &[Step],
) -> Result<(bool, MemDisk), Fail> {
    let mut held = opened(alloc, disk, cached)?;
    let is_so = is_kept(alloc, &mut held, plain, steps)?;
    Ok((is_so, held.into_disk()))
}

// Goes through the story, up to the first point at which the tables do not show the same as plain ones.
fn differs_at(alloc: Global, cached: usize) -> Result<Option<usize>, Fail> {
    let mut plain = PlainView::new(alloc);
    let mut disk = new_store(alloc)?;
    for (point, steps) in STORY.iter().enumerate() {
        let (is_so, then) = reopened(alloc, (disk, cached), &mut plain, steps)?;
        if !is_so {
            return Ok(Some(point));
        }
        disk = then;
    }
    Ok(None)
}

#[test]
fn checkpoints_show_the_same_tables(rt: HostRuntime) -> Result<(), Fail> {
    for cached in [1_usize, 64] {
        assert!(rt; differs_at(rt.alloc(), cached)?.is_none(), "{cached}");
    }
    Ok(())
}

// What is told where a half of the store is too short for so many bytes.
fn too_short(need: usize) -> ImageError {
    ImageError::Full(Full {
        need,
        room: 1_040_384,
    })
}

/// Rows for which a half has no room: 130 pages of four.
const MANY: [Step; 1] = [Step::Put("A", (0, 520, 2_000))];

const FEW: [Step; 2] = [Step::Create("A"), Step::Put("A", (0, 3, 2_000))];

// What is told of a checkpoint of these rows more, at this generation, with so many bytes held back; and whether the tables show the
// same then over the same pages.
fn tried(
    alloc: Global,
    held: &mut Held<MemDisk>,
    more: &[Step],
    (generation, held_back): (Option<u64>, usize),
) -> Result<(Option<ImageError>, bool), Fail> {
    let mut after = plain_of(alloc, &FEW)?;
    apply(alloc, &mut after, more)?;
    commit(alloc, held, more)?;
    if let Some(generation) = generation {
        held.age(generation);
    }
    let told = held.checkpoint(alloc, held_back).err();
    Ok((told, shows(alloc, held, &mut after)?))
}

fn shows_few(alloc: Global, disk: MemDisk) -> Result<bool, Fail> {
    let mut held = open_held(alloc, disk)?;
    shows(alloc, &mut held, &mut plain_of(alloc, &FEW)?)
}

// The same, and whether they are there when the store is opened again.
fn refused(
    alloc: Global,
    more: &[Step],
    generation: Option<u64>,
    held_back: usize,
) -> Result<(Option<ImageError>, bool), Fail> {
    let mut held = open_held(alloc, written(alloc, &FEW)?)?;
    let (told, is_kept) = tried(alloc, &mut held, more, (generation, held_back))?;
    Ok((told, shows_few(alloc, held.into_disk())? && is_kept))
}

#[test]
fn a_half_that_is_too_short_stays_as_it_was(rt: HostRuntime) -> Result<(), Fail> {
    let (told, is_kept) = refused(rt.alloc(), &MANY, None, 0)?;
    assert!(rt; told == Some(too_short(1_081_345)) && is_kept);
    let (told, is_kept) = refused(rt.alloc(), &[], None, 1_030_000)?;
    assert!(rt; told == Some(too_short(1_054_577)) && is_kept);
    Ok(())
}

#[test]
fn behind_the_last_generation_comes_none(rt: HostRuntime) -> Result<(), Fail> {
    let (told, is_kept) = refused(rt.alloc(), &[], Some(u64::MAX), 0)?;
    assert!(rt; told == Some(ImageError::NoMemory) && is_kept);
    Ok(())
}
