//! How much a store holds, as text.

ghost use Rattle.std.specs.Prelude.{◌≡◌, ◌∷◌, ◌++◌, [], IfOk, OnOk, codes, length, string_bytes, vec_items};
ghost use Rattle.rdb_core.specs.InDoubt.{xids_left};
ghost use Rattle.xa_manager.specs.Branch.{in_doubt_xids};
ghost use Rattle.told_stores.specs.Rooms.{journal_lines, room_text, table_lines};

use drda_disk::Disk;
use durable_core::DurableCore;
use rdb_core::InDoubt;
use std::alloc::{AllocError, Global};
use std::fmt::Write;
use turns::Gauge;
use xa_calls::Xid;

/// A line each: the name of a store, its size in bytes, how many are left for records of all of its journal, how many its tables take of
/// a half, and how many units are in doubt.
pub(crate) fn room_text<D: Disk + Drop>(
    alloc: Global,
    core: DurableCore<D>,
    gauge: Gauge,
) -> Result<String, AllocError>
    ensures { IfOk result (λ text. string_bytes text ≡ room_text core.name (length (D.life core.disk).seen) gauge (length (in_doubt_xids core.state.branches))) }
{
    let front = front_of(alloc, &core);
    let size = core.into_disk().size();
    let (mut text, doubts) = front?;
    push_journal(&mut text, size, gauge.room, gauge.journal)?;
    push_tables(&mut text, gauge.tables, gauge.half, doubts)?;
    Ok(text)
}

// The lines of the store and of its journal.
fn push_journal(
    text: &mut String,
    size: usize,
    room: usize,
    journal: usize,
) -> Result<(), AllocError>
    ensures { OnOk result (string_bytes text.new ≡ string_bytes text.old ++ journal_lines size room journal) }
{
    match write!(text, "size {size}\nroom {room} of {journal}\n") {
        Ok(()) => Ok(()),
        Err(_) => Err(AllocError),
    }
}

// The lines of the tables and of the units in doubt.
fn push_tables(
    text: &mut String,
    tables: usize,
    half: usize,
    doubts: usize,
) -> Result<(), AllocError>
    ensures { OnOk result (string_bytes text.new ≡ string_bytes text.old ++ table_lines tables half doubts) }
{
    match write!(text, "tables {tables} of {half}\nindoubt {doubts}\n") {
        Ok(()) => Ok(()),
        Err(_) => Err(AllocError),
    }
}

// The line with the name, and how many units are in doubt.
fn front_of<D: Disk>(alloc: Global, core: &DurableCore<D>) -> Result<(String, usize), AllocError>
    ensures name { IfOk result (λ front. string_bytes front.0 ≡ codes "name " ++ core.now.name ++ 10 ∷ []) }
    ensures doubts { IfOk result (λ front. front.1 ≡ length (in_doubt_xids core.now.state.branches)) }
{
    let doubts = listed(alloc, core.in_doubt())?.len();
    let text = format!(in alloc; "name {}\n", core.name())?;
    Ok((text, doubts))
}

// The XIDs in doubt, so that they can be counted.
fn listed<'a>(alloc: Global, doubts: InDoubt<'a>) -> Result<Vec<&'a Xid>, AllocError>
    ensures { IfOk result (λ xids. length (vec_items xids) ≡ length (xids_left doubts.entry)) }
{
    let mut left = doubts;
    let mut xids = Vec::new(alloc);
    while let Some(xid) = left.next() {
        xids.push(xid)?;
    }
    Ok(xids)
}
