//! The records of a journal, replayed.

ghost use Rattle.std.specs.Prelude.{◌≡◌, IfErr, IfOk};
ghost use Rattle.unit_journal.specs.Record.{entries_of, entry_of};
ghost use Rattle.unit_records.specs.Records.{UnitRecord as RecordIs};
ghost use Rattle.paged_tables.specs.PagedTables.{store_in};
ghost use Rattle.paged_tables.specs.TablesByName.{PagesStay};
ghost use Rattle.recovery.specs.Durable.{Durable, at_checkpoint};
ghost use Rattle.recovery.specs.Known.{AreKnown, is_of};
ghost use Rattle.recovery.specs.Replay.{durable_of, pages_of};
ghost use Rattle.recovery.specs.Journal.{Finds, Goes, Leads, Replays};

use crate::steps::Replay;
use half_store::Layout;
use paged_tables::PagedTables;
use row_values::ReadError;
use std::alloc::Global;
use thiserror::Error;
use unit_journal::{Kind, Record};
use unit_records::UnitRecord;

/// Why records were not replayed.
#[derive(Clone, Copy, Debug, PartialEq, Eq, Error)]
pub enum ReplayError {
    #[error("no memory")]
    NoMemory,
    /// The record whose gate is at this offset of the disk has no place among those before it, or its
    /// body says nothing.
    #[error("damaged at {at}")]
    Damaged { at: usize },
}

/// The committed tables and the units in doubt that the records of a journal lead to, from its first on, over the tables of the checkpoint
/// that they follow. `Damaged` exactly where a record has no place among those before it (as `Replay::step` tells; so a prepare that
/// creates a table and does not claim all names has none), its kind is none of the layout's, or its body is none of its kind: at the first
/// such record's gate. No page is read, and what is true of the tables' pages stays true.
pub fn replay(
    alloc: Global,
    layout: Layout,
    checkpoint: PagedTables,
    records: &[Record],
) -> Result<Replay, ReplayError>
    ensures replays { Replays layout (store_in checkpoint) records.now result }
    ensures pages { IfOk result (λ r. PagesStay checkpoint.tables (pages_of r)) }
    ensures finds { (d : Durable) → AreKnown layout (entries_of records.now) → Leads (at_checkpoint (store_in checkpoint)) (entries_of records.now) d → Finds d result }
{
    crate::laws::records_lead_one_way();
    let mut state = Replay::over(alloc, checkpoint);
    let mut left = records;
    while let [entry, rest @ ..] = left {
        match read_and_step(&mut state, alloc, layout, entry) {
            Ok(()) => {}
            Err(ReadError::Damaged) => return Err(ReplayError::Damaged { at: entry.at }),
            Err(ReadError::NoMemory) => return Err(ReplayError::NoMemory),
        }
        left = rest;
    }
    Ok(state)
}

// Whether the layout has records of the kind.
fn is_of(layout: Layout, kind: Kind) -> bool
    ensures { result ≡ is_of layout kind }
{
    match (layout, kind) {
        (Layout::One, Kind::Heuristic | Kind::Forget) => false,
        (Layout::One, Kind::Commit | Kind::Prepare | Kind::Decide) => true,
        (Layout::Two, _) => true,
    }
}

// Reads a record and makes it good.
#[tactic(auto, using(paged_tables::proofs::Pages::pages_stay_themselves))]
fn read_and_step(
    state: &mut Replay,
    alloc: Global,
    layout: Layout,
    entry: &Record,
) -> Result<(), ReadError>
    ensures goes { Goes layout (durable_of state.old) (entry_of entry.now) result (durable_of state.new) }
    ensures pages { PagesStay (pages_of state.old) (pages_of state.new) }
{
    unit_records::laws::records_have_one_reading();
    if !is_of(layout, entry.kind) {
        return Err(ReadError::Damaged);
    }
    let said = match UnitRecord::read(alloc, entry.kind, entry.body.as_slice()) {
        Ok(said) => said,
        Err(error) => return Err(error),
    };
    state.step(alloc, said)
}
