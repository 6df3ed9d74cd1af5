//! What is read of a store.

ghost use Rattle.std.specs.Prelude.{◌≡◌, IfOk, IsTrue, List, ℕ, length, true};
ghost use Rattle.drda_disk.specs.Disk.{Only, Stays};
ghost use Rattle.unit_journal.specs.Adding.{IsPlace};
ghost use Rattle.unit_journal.specs.Journal.{held_of, region_of};
ghost use Rattle.unit_journal.specs.Opened.{IsOpened};
ghost use Rattle.unit_journal.specs.Record.{Entry, entries_of};
ghost use Rattle.unit_journal.specs.Stands.{IsDamagedAt, Stands};
ghost use Rattle.store_check.specs.Checkpoint.{HasCheckpoint, forms};
ghost use Rattle.store_check.specs.Half.{BreaksHalf, pages_of};
ghost use Rattle.tables.specs.Tables.{Store as Tables};
ghost use Rattle.tables.specs.View.{is_store};
ghost use Rattle.paged_tables.specs.PagedTables.{store_in};
ghost use Rattle.paged_tables.specs.TablesByName.{PagesStay};
ghost use Rattle.recovery.specs.Durable.{Durable, at_checkpoint};
ghost use Rattle.recovery.specs.Journal.{Leads, StopsAt};
ghost use Rattle.recovery.specs.Known.{AreKnown};
ghost use Rattle.recovery.specs.Replay.{durable_of, pages_of as replayed_pages};
ghost use Rattle.durable_core.specs.Found.{StandInFront};
ghost use Rattle.durable_core.specs.Reads.{ArePagesInside, Counts, IsPlain, TellsDamage};

use crate::errors::OpenError;
use drda_disk::{Disk, Region};
use half_store::{Active, Layout};
use paged_checkpoints::open_checkpoint;
use paged_tables::PagedTables;
use recovery::{PreparedUnit, Replay, ReplayError, replay};
use row_pages::Pager;
use std::alloc::Global;
use store_check::CheckError;
use unit_journal::{Journal, Record};

/// The name of a store, the layout of its active half, its journal, its committed tables over their pages, and its
/// branches in doubt.
#[derive(Drop)]
pub(crate) struct Found {
    pub(crate) name: String,
    pub(crate) layout: Layout,
    pub(crate) journal: Journal,
    pub(crate) store: PagedTables,
    pub(crate) units: Vec<PreparedUnit>,
}

/// The tables of the last checkpoint, over the pages of the active half: all of these are checked, and no row is kept in
/// memory.
pub(crate) fn read_tables<D: Disk>(
    alloc: Global,
    pager: &mut Pager<D>,
    active: &Active,
) -> Result<PagedTables, OpenError>
    requires { ArePagesInside (length (D.life pager.old).seen) active.now }
    ensures laid { IsTrue D.is_modelled → IfOk result (λ store. HasCheckpoint (D.life pager.old).seen (pages_of active.now) (store_in store)) }
    ensures store { IfOk result (λ store. is_store (store_in store) ≡ true) }
    ensures stand { IfOk result (λ store. StandInFront D.is_modelled (D.life pager.old).seen active.now.region store.tables) }
    ensures opens { (tables : Tables) → IsTrue D.is_modelled → HasCheckpoint (D.life pager.old).seen (pages_of active.now) tables → IsPlain result }
    ensures tells { IsTrue D.is_modelled → TellsDamage result (BreaksHalf forms (D.life pager.old).seen (pages_of active.now)) }
    ensures stays { Stays (D.life pager.old) (D.life pager.new) }
    ensures cause { Counts result (D.life pager.old).faults (D.life pager.new).faults }
{
    store_check::laws::checkpoints_are_known();
    match open_checkpoint(alloc, pager, active) {
        Ok(tables) => Ok(tables),
        Err(CheckError::Damaged { at }) => Err(OpenError::Damaged { at }),
        Err(CheckError::DeviceFailed) => Err(OpenError::DeviceFailed),
        Err(CheckError::NoMemory) => Err(OpenError::NoMemory),
    }
}

/// The journal of a region of a disk of which a crash leaves what is read, and its records.
pub(crate) fn read_journal<D: Disk>(
    alloc: Global,
    disk: &mut D,
    region: Region,
) -> Result<(Journal, Vec<Record>), OpenError>
    requires place { IsPlace (length (D.life disk.old).seen) region }
    requires settled { Only (D.life disk.old) }
    ensures records { IsTrue D.is_modelled → IfOk result (λ found. IsOpened D.is_modelled (D.life disk.new) region (entries_of found.1.items) found) }
    ensures stand { IsTrue D.is_modelled → IfOk result (λ found. Stands region (entries_of found.1.items) (D.life disk.old).seen) }
    ensures region { IfOk result (λ found. (region_of found.0 ≡ region) × (held_of found.0 ≡ 0)) }
    ensures opens { (es : List Entry) → IsTrue D.is_modelled → Stands region es (D.life disk.old).seen → IsPlain result }
    ensures tells { IsTrue D.is_modelled → TellsDamage result (λ at. IsDamagedAt region at (D.life disk.old).seen) }
    ensures stays { Stays (D.life disk.old) (D.life disk.new) }
    ensures cause { Counts result (D.life disk.old).faults (D.life disk.new).faults }
{
    match Journal::open(alloc, disk, region) {
        Ok(found) => Ok(found),
        Err(unit_journal::OpenError::Damaged { at }) => Err(OpenError::Damaged { at }),
        Err(unit_journal::OpenError::DeviceFailed) => Err(OpenError::DeviceFailed),
        Err(unit_journal::OpenError::NoMemory) => Err(OpenError::NoMemory),
    }
}

/// What the records of a journal of this layout lead to, over the tables of the checkpoint that they follow. No page is
/// read.
pub(crate) fn read_units(
    alloc: Global,
    layout: Layout,
    checkpoint: PagedTables,
    records: &[Record],
) -> Result<Replay, OpenError>
    ensures known { IfOk result (λ r. AreKnown layout (entries_of records.now)) }
    ensures pages { IfOk result (λ r. PagesStay checkpoint.tables (replayed_pages r)) }
    ensures leads { IfOk result (λ r. Leads (at_checkpoint (store_in checkpoint)) (entries_of records.now) (durable_of r)) }
    ensures opens { (d : Durable) → AreKnown layout (entries_of records.now) → Leads (at_checkpoint (store_in checkpoint)) (entries_of records.now) d → IsPlain result }
    ensures tells { TellsDamage result (StopsAt layout (at_checkpoint (store_in checkpoint)) records.now) }
    ensures cause { (n : ℕ) → Counts result n n }
{
    match replay(alloc, layout, checkpoint, records) {
        Ok(units) => Ok(units),
        Err(ReplayError::Damaged { at }) => Err(OpenError::Damaged { at }),
        Err(ReplayError::NoMemory) => Err(OpenError::NoMemory),
    }
}
