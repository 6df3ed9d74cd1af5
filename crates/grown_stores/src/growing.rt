//! Moving a store into a larger disk.

ghost use Rattle.std.specs.Prelude.{◌≡◌, ◌≤◌, IsTrue, Ok, OnOk, codes, length, true};
ghost use Rattle.drda_disk.specs.Disk.{LeavesOnly, Only, Stays, Torn, overlaid};
ghost use Rattle.half_store.specs.Active.{active_of};
ghost use Rattle.half_store.specs.Fresh.{IsUnmarked};
ghost use Rattle.half_store.specs.Layout.{half_len, is_store_size};
ghost use Rattle.half_store.specs.Opened.{IsBehindPages, store_of};
ghost use Rattle.half_store.specs.declared.layout.Half.TheVariants.{First};
ghost use Rattle.grown_stores.specs.Growing.{IsGrown, IsNoneOrGrown};

use crate::laying::head_of;
use crate::moving::move_half;
use drda_disk::{Disk, DiskFault, write_through};
use half_store::{Active, FIRST_AT, Half, MARK, OpenError, half_bytes, is_store};
use std::alloc::Global;
use store_files::Fault;

/// A name that a store may have.
const ANY_NAME: &str = "RDB";

/// Moves a store into another disk, whose halves are as long at least, and which has all its blocks then: its name and the bytes of its
/// active half, and so all that it opens to. The old disk is only read. What was written is opened in the end, and found to be that store.
///
/// `NoRoom` comes where the other disk has shorter halves, or no store's size, before anything is written; else memory may be refused, or a
/// device fails. On a disk that did not begin as a store a crash at any moment leaves no store, or the whole of it, whatever this answers.
pub fn grow<D: Disk, E: Disk>(alloc: Global, old: &mut D, new: &mut E) -> Result<(), Fault>
    ensures grown { OnOk result (IsTrue D.is_modelled → IsTrue E.is_modelled → Only (E.life new.new) × IsGrown (D.life old.old).seen (E.life new.new).seen) }
    ensures moments { IsTrue D.is_modelled → IsTrue E.is_modelled → IsUnmarked (E.life new.old) → LeavesOnly (E.life new.old) (E.life new.new) (IsNoneOrGrown (D.life old.old).seen) }
    ensures stays { Stays (D.life old.old) (D.life old.new) }
    ensures size { length (E.life new.new).seen ≡ length (E.life new.old).seen }
{
    match half_store::open(alloc, old) {
        Ok(active) => grow_half(alloc, old, &active, new),
        Err(error) => Err(told(error)),
    }
}

// What is told of a disk that is not opened.
fn told(error: OpenError) -> Fault {
    match error {
        OpenError::NotAStore => Fault::NotAStore,
        OpenError::Damaged { at } => Fault::Damaged { at },
        OpenError::DeviceFailed => Fault::Device,
        OpenError::NoMemory => Fault::NoMemory,
    }
}

/// Whether a disk of so many bytes has halves that are as long, at least, as those of a store of so many.
pub(crate) fn fits(old: usize, new: usize) -> bool
    ensures { IsTrue result → (is_store_size old ≡ true) × (is_store_size new ≡ true) × (half_len old ≤ half_len new) }
{
    is_store(old, ANY_NAME) && is_store(new, ANY_NAME) && half_bytes(old) <= half_bytes(new)
}

// The same, of a store with this active half.
fn grow_half<D: Disk, E: Disk>(
    alloc: Global,
    old: &mut D,
    active: &Active,
    new: &mut E,
) -> Result<(), Fault>
    requires active { IsTrue D.is_modelled → active_of (D.life old.old).seen ≡ Ok (store_of active.now) }
    requires region { IsBehindPages (half_len (length (D.life old.old).seen)) active.now }
    ensures grown { OnOk result (IsTrue D.is_modelled → IsTrue E.is_modelled → Only (E.life new.new) × IsGrown (D.life old.old).seen (E.life new.new).seen) }
    ensures moments { IsTrue D.is_modelled → IsTrue E.is_modelled → IsUnmarked (E.life new.old) → LeavesOnly (E.life new.old) (E.life new.new) (IsNoneOrGrown (D.life old.old).seen) }
    ensures stays { Stays (D.life old.old) (D.life old.new) }
    ensures size { length (E.life new.new).seen ≡ length (E.life new.old).seen }
{
    let (from, size) = (old.size(), new.size());
    if !fits(from, size) || !is_store(size, &active.name) {
        return Err(Fault::NoRoom);
    }
    let (count, room) = (half_bytes(from), half_bytes(size));
    let head = head_of(alloc, size, &active.name)?;
    let at = active.region.at + active.region.length - count;
    move_half(alloc, old, at, count, new, &head, FIRST_AT + room)?;
    finish(alloc, active, new)
}

// Writes the mark, and looks whether the store is there.
fn finish<E: Disk>(alloc: Global, active: &Active, new: &mut E) -> Result<(), Fault>
    requires durable { Only (E.life new.old) }
    requires front { 8 ≤ length (E.life new.old).seen }
    ensures marked { OnOk result (IsTrue E.is_modelled → (E.life new.new).seen ≡ overlaid (E.life new.old).seen 0 (codes "DRDASTO1")) }
    ensures there { OnOk result (IsTrue E.is_modelled → active_of (E.life new.new).seen ≡ Ok (record (store_of active.now) { half = First })) }
    ensures durable { OnOk result (Only (E.life new.new)) }
    ensures moments { LeavesOnly (E.life new.old) (E.life new.new) (Torn 0 8 (E.life new.old).seen) }
    ensures size { length (E.life new.new).seen ≡ length (E.life new.old).seen }
{
    match write_through(new, 0, &MARK) {
        Ok(()) => {}
        Err(DiskFault) => return Err(Fault::Device),
    }
    match half_store::open(alloc, new) {
        Ok(found) => {
            if is_first_of(&found, active) {
                Ok(())
            } else {
                Err(Fault::Device)
            }
        }
        Err(error) => Err(told(error)),
    }
}

// Whether a store is another one, but for its half, which is the first.
fn is_first_of(found: &Active, active: &Active) -> bool
    ensures { result ≡ true → store_of found.now ≡ record (store_of active.now) { half = First } }
{
    found.half == Half::First
        && found.name == active.name
        && found.generation == active.generation
        && found.pages == active.pages
        && found.first_catalogue == active.first_catalogue
        && found.catalogue_pages == active.catalogue_pages
        && found.layout == active.layout
}
