//! Branches in doubt whose records are laid behind a checkpoint.

ghost use Rattle.std.specs.Prelude.{◌≡◌, map};
ghost use Rattle.paged_tables.specs.PagedTables.{store_in};
ghost use Rattle.unit_journal.specs.Record.{entries_of, entry_of};
ghost use Rattle.unit_records.specs.Records.{IsRecord, UnitRecord as RecordIs, entry_of as written};
ghost use Rattle.recovery.specs.Durable.{Doubts};
ghost use Rattle.recovery.specs.Journal.{AreGood};
ghost use Rattle.recovery.specs.Laying.{are_placed, is_placed_by, records_of};
ghost use Rattle.recovery.specs.Replay.{Judges};

use crate::gathered::gather;
use paged_tables::PagedTables;
use row_values::ReadError;
use std::alloc::Global;
use unit_journal::Record;
use unit_records::UnitRecord;

/// Finds the places of the changes of units in doubt, by the records of these: `Damaged` exactly where a change
/// of one of them has none in the store behind those before it. No page is read.
pub fn find_places(alloc: Global, store: &PagedTables, records: &[Record]) -> Result<(), ReadError>
    ensures { (doubts : Doubts) → AreGood (records_of doubts) → entries_of records.now ≡ map written (records_of doubts) → Judges result (are_placed doubts (store_in store.now)) }
{
    let mut left = records;
    while let [entry, rest @ ..] = left {
        match find_place(alloc, store, entry) {
            Ok(()) => {}
            Err(error) => return Err(error),
        }
        left = rest;
    }
    Ok(())
}

// Finds the places of the changes that a record prepares.
fn find_place(alloc: Global, store: &PagedTables, entry: &Record) -> Result<(), ReadError>
    ensures { (said : RecordIs) → IsRecord (entry_of entry.now).kind (entry_of entry.now).body said → Judges result (is_placed_by (store_in store.now) said) }
{
    let said = match UnitRecord::read(alloc, entry.kind, entry.body.as_slice()) {
        Ok(said) => said,
        Err(error) => return Err(error),
    };
    match said {
        UnitRecord::Prepare { changes, .. } => match gather(store, alloc, changes) {
            Ok(_) => Ok(()),
            Err(error) => Err(error),
        },
        UnitRecord::Commit { .. } => Ok(()),
        UnitRecord::Decide { .. } => Ok(()),
        UnitRecord::Heuristic { .. } => Ok(()),
        UnitRecord::Forget { .. } => Ok(()),
    }
}
