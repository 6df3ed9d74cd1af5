//! Opening a store.

ghost use Rattle.std.specs.Prelude.{◌≡◌, IfErr, IfOk, IsTrue, List, ℕ, length};
ghost use Rattle.drda_disk.specs.Disk.{Only, Stays};
ghost use Rattle.unit_journal.specs.Journal.{room_of};
ghost use Rattle.recovery.specs.Durable.{Durable};
ghost use Rattle.recovery.specs.Opens.{OpensTo};
ghost use Rattle.durable_core.specs.Found.{IsFound, durable_in, name_in};
ghost use Rattle.durable_core.specs.Opening.{CountsOpen, Finds, IsOpenedTo, OpensStore, StoodThere, SyncsFirst, disk_in};
ghost use Rattle.durable_core.specs.Reads.{Counts, IsPlain, TellsStore};

use crate::durable::DurableCore;
use crate::errors::{OpenError, Refused};
use crate::head::read_head;
use crate::holding::hold_all;
use crate::reading::{Found, read_journal, read_tables, read_units};
use crate::restoring::restore_all;
use drda_disk::{Disk, DiskFault};
use half_store::Active;
use journal_recorder::{CACHED_PAGES, DiskRecorder};
use rdb_core::Core;
use row_pages::{PageCache, Pager};
use std::alloc::{AllocError, Global};

/// How many pages of a store that is open are kept at most: 32 MiB.
const KEPT_PAGES: usize = 4_096;

/// Opens the store of a disk: the head, the tables of the last checkpoint on the pages of the active
/// half, the records of the journal from its first on, and the branches in doubt with their claims.
/// All pages are checked, and their rows stay on them; what the records say has changed since is in memory.
/// A store of layout 1 opens too: it stays so until its next checkpoint. Nothing is written. Each refusal hands the disk back.
///
/// The first device call is a sync: a disk of a server that was killed may have writes that a crash would lose still, so it
/// settles what is read before any of it is read. Where it fails `DeviceFailed` is answered, and nothing is read.
///
/// `NotAStore` comes where the disk has not 2 MiB to 1 GiB or does not begin with `DRDASTO1`.
/// `Damaged` comes where the head, the header of a half, a page of the active half or a record of the
/// journal is damaged, at the offset of the first that is; and where what the branches in doubt hold
/// has no room behind the records, at the last record that left one of them in doubt. What opens is
/// never answered so.
pub fn open<D: Disk>(alloc: Global, disk: D) -> Result<DurableCore<D>, Refused<D>>
    ensures first { SyncsFirst D.life D.syncs disk result }
    ensures opens { (name : List ℕ) (d : Durable) → IsTrue D.is_modelled → OpensTo name d (D.life disk).seen → Finds name d result }
    ensures found { IsTrue D.is_modelled → IfOk result (StoodThere (D.life disk).seen) }
    ensures tells { IsTrue D.is_modelled → OpensStore result (D.life disk).seen }
    ensures stays { Stays (D.life disk) (D.life (disk_in result)) }
    ensures cause { CountsOpen result (D.life disk).faults (D.life (disk_in result)).faults }
{
    let mut disk = disk;
    match disk.sync() {
        Ok(()) => open_synced(alloc, disk),
        Err(DiskFault) => Err(Refused {
            disk,
            error: OpenError::DeviceFailed,
        }),
    }
}

// The store of a disk that was synced.
fn open_synced<D: Disk>(alloc: Global, disk: D) -> Result<DurableCore<D>, Refused<D>>
    requires settled { Only (D.life disk) }
    ensures opens { (name : List ℕ) (d : Durable) → IsTrue D.is_modelled → OpensTo name d (D.life disk).seen → Finds name d result }
    ensures found { IsTrue D.is_modelled → IfOk result (StoodThere (D.life disk).seen) }
    ensures tells { IsTrue D.is_modelled → OpensStore result (D.life disk).seen }
    ensures stays { Stays (D.life disk) (D.life (disk_in result)) }
    ensures cause { CountsOpen result (D.life disk).faults (D.life (disk_in result)).faults }
{
    match PageCache::new(alloc, CACHED_PAGES) {
        Ok(cache) => open_paged(alloc, Pager::over(disk, cache)),
        Err(AllocError) => Err(Refused {
            disk,
            error: OpenError::NoMemory,
        }),
    }
}

// The same, of a disk that is lent as one with the pages of it that are kept.
fn open_paged<D: Disk>(alloc: Global, pager: Pager<D>) -> Result<DurableCore<D>, Refused<D>>
    requires settled { Only (D.life pager) }
    ensures opens { (name : List ℕ) (d : Durable) → IsTrue D.is_modelled → OpensTo name d (D.life pager).seen → Finds name d result }
    ensures found { IsTrue D.is_modelled → IfOk result (StoodThere (D.life pager).seen) }
    ensures tells { IsTrue D.is_modelled → OpensStore result (D.life pager).seen }
    ensures stays { Stays (D.life pager) (D.life (disk_in result)) }
    ensures cause { CountsOpen result (D.life pager).faults (D.life (disk_in result)).faults }
{
    recovery::laws::images_open_to_one_state();
    let mut pager = pager;
    match read_store(alloc, &mut pager) {
        Ok(found) => begin(alloc, pager, found),
        Err(error) => Err(Refused {
            disk: pager.into_disk(),
            error,
        }),
    }
}

// The parts of the store that a disk is.
fn read_store<D: Disk>(alloc: Global, pager: &mut Pager<D>) -> Result<Found, OpenError>
    requires settled { Only (D.life pager.old) }
    ensures found { IfOk result (IsFound D.is_modelled (D.life pager.new)) }
    ensures opens { (name : List ℕ) (d : Durable) → IsTrue D.is_modelled → OpensTo name d (D.life pager.old).seen → IsPlain result }
    ensures tells { IsTrue D.is_modelled → TellsStore result (D.life pager.old).seen }
    ensures stays { Stays (D.life pager.old) (D.life pager.new) }
    ensures cause { Counts result (D.life pager.old).faults (D.life pager.new).faults }
{
    recovery::laws::records_lead_one_way();
    recovery::laws::records_lead_to_sound_states();
    recovery::laws::images_open_there();
    store_check::laws::checkpoints_are_known();
    unit_journal::laws::a_region_has_one_reading();
    let active = read_head(alloc, pager)?;
    let tables = read_tables(alloc, pager, &active)?;
    let Active {
        name,
        layout,
        region,
        ..
    } = active;
    let (mut journal, records) = read_journal(alloc, pager, region)?;
    let (store, units) = read_units(alloc, layout, tables, records.as_slice())?.into_parts();
    hold_all(
        alloc,
        layout,
        &mut journal,
        records.as_slice(),
        units.as_slice(),
    )?;
    Ok(Found {
        name,
        layout,
        journal,
        store,
        units,
    })
}

// The core over a disk of which this was read. No page that was checked is kept.
fn begin<D: Disk>(
    alloc: Global,
    pager: Pager<D>,
    found: Found,
) -> Result<DurableCore<D>, Refused<D>>
    requires { IsFound D.is_modelled (D.life pager) found }
    ensures ok { IfOk result (IsOpenedTo (name_in found) (durable_in found)) }
    ensures room { IfOk result (λ core. core.room ≡ room_of found.journal) }
    ensures layout { IfOk result (λ core. core.layout ≡ found.layout) }
    ensures err { IfErr result (λ refused. refused.error ≡ OpenError.NoMemory) }
    ensures disk { disk_in result ≡ pager }
{
    let disk = pager.into_disk();
    match PageCache::new(alloc, KEPT_PAGES) {
        Ok(cache) => begin_over(alloc, Pager::over(disk, cache), found),
        Err(AllocError) => Err(Refused {
            disk,
            error: OpenError::NoMemory,
        }),
    }
}

// The same over a pager that keeps no page yet.
fn begin_over<D: Disk>(
    alloc: Global,
    pager: Pager<D>,
    found: Found,
) -> Result<DurableCore<D>, Refused<D>>
    requires { IsFound D.is_modelled (D.life pager) found }
    ensures ok { IfOk result (IsOpenedTo (name_in found) (durable_in found)) }
    ensures room { IfOk result (λ core. core.room ≡ room_of found.journal) }
    ensures layout { IfOk result (λ core. core.layout ≡ found.layout) }
    ensures err { IfErr result (λ refused. refused.error ≡ OpenError.NoMemory) }
    ensures disk { disk_in result ≡ pager }
{
    recovery::laws::openings_are_kept();
    let Found {
        name,
        layout,
        journal,
        store,
        units,
    } = found;
    let recorder = DiskRecorder::new(alloc, pager, journal, layout);
    let mut core = Core::restored(alloc, recorder, store);
    match restore_all(&mut core, units) {
        Ok(()) => Ok(DurableCore { name, core }),
        Err(AllocError) => Err(Refused {
            disk: core.into_recorder().into_disk(),
            error: OpenError::NoMemory,
        }),
    }
}
