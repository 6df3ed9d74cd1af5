//! The tables of a store, as SQL.

ghost use Rattle.std.specs.Prelude.{◌≡◌, ◌++◌, IfErr, IfOk, IsTrue, OnOk, false, length, string_bytes};
ghost use Rattle.paged_tables.specs.PagedTables.{store_in};
ghost use Rattle.paged_tables.specs.TablesByName.{AreOnPages, LieInside};
ghost use Rattle.recovery.specs.Part.{outcome_at};
ghost use Rattle.store_dump.specs.Dump.{IsWritten, dump_text, list_text};
ghost use Rattle.store_files.specs.Stores.{IsOfDevice};
ghost use Rattle.told_stores.specs.Doubts.{listed_in};
ghost use Rattle.told_stores.specs.Dumps.{Dumps, ListsTables, comment_line, comment_text, dumped, named_line};

use crate::doubts::outcome_word;
use command_line::xid_word;
use conversation::write_whole;
use drda_disk::Disk;
use durable_core::DurableCore;
use paged_tables::PagedTables;
use std::alloc::{AllocError, Global};
use std::fmt::Write as _;
use std::io::Write;
use store_dump::DumpError;
use store_files::{Fault, StoreFiles, flush, open_file};
use xa_calls::Xid;
use xa_manager::BranchState;

/// What stands in front of an XID.
const COMMENT: &str = "-- in doubt, not dumped: ";

/// Writes the SQL that makes the tables of the store of a path anew, which `dump_tables` of store_dump tells. In front of it
/// stands a comment for each unit in doubt, of which nothing is dumped, with how it was decided heuristically, where it was: what
/// was committed so is in the tables. Of the rows one page is in memory at a time.
pub fn dump<F: StoreFiles, W: Write>(
    alloc: Global,
    files: &mut F,
    path: &str,
    out: &mut W,
) -> Result<(), Fault>
    ensures { Dumps F.Disk.is_modelled F.Disk.life F.calls path.now files.old (W.contents out.old) result files.new (W.contents out.new) }
{
    recovery::laws::records_lead_to_sound_states();
    store_check::laws::checkpoints_are_known();
    recovery::laws::openings_are_kept();
    let core = open_file(alloc, files, path)?;
    dump_core(alloc, core, out)
}

/// Writes the CREATE TABLE of each table of the store of a path, in the order of their names, each with a comment that tells how
/// many rows it has, and how many pages these take at the next checkpoint. Of the rows one page is in memory at a time.
pub fn list_tables<F: StoreFiles, W: Write>(
    alloc: Global,
    files: &mut F,
    path: &str,
    out: &mut W,
) -> Result<(), Fault>
    ensures { ListsTables F.Disk.is_modelled F.Disk.life F.calls path.now files.old (W.contents out.old) result files.new (W.contents out.new) }
{
    let core = open_file(alloc, files, path)?;
    list_core(alloc, core, out)
}

// The comments of the units in doubt of a core, and its tables.
fn dump_core<D: Disk + Drop, W: Write>(
    alloc: Global,
    core: DurableCore<D>,
    out: &mut W,
) -> Result<(), Fault>
    ensures told { IsTrue D.is_modelled → core.is_failed ≡ false → IsWritten (dumped (listed_in core.state.branches) core.state.base.store) result (W.contents out.old) (W.contents out.new) }
    ensures cause { IfErr result IsOfDevice }
{
    let comment = comment_text(alloc, &core)?;
    let (tables, mut disk) = core.into_tables();
    match write_whole(out, comment.as_bytes()) {
        Ok(()) => dump_from(alloc, &tables, &mut disk, out),
        Err(_) => Err(Fault::Device),
    }
}

// The tables of a disk.
fn dump_from<D: Disk, W: Write>(
    alloc: Global,
    tables: &PagedTables,
    disk: &mut D,
    out: &mut W,
) -> Result<(), Fault>
    requires { LieInside (length (D.life disk.old).seen) tables.now.tables }
    ensures told { IsTrue D.is_modelled → AreOnPages (D.life disk.old).seen tables.now.tables → IsWritten (dump_text (store_in tables.now)) result (W.contents out.old) (W.contents out.new) }
    ensures cause { IfErr result IsOfDevice }
{
    match store_dump::dump_tables(alloc, tables, disk, out) {
        Ok(()) => flush(out),
        Err(error) => Err(fault_of(error)),
    }
}

// What is told of the tables of a core.
fn list_core<D: Disk + Drop, W: Write>(
    alloc: Global,
    core: DurableCore<D>,
    out: &mut W,
) -> Result<(), Fault>
    ensures told { IsTrue D.is_modelled → core.is_failed ≡ false → IsWritten (list_text core.state.base.store) result (W.contents out.old) (W.contents out.new) }
    ensures cause { IfErr result IsOfDevice }
{
    let (tables, mut disk) = core.into_tables();
    list_from(alloc, &tables, &mut disk, out)
}

// What is told of the tables of a disk.
fn list_from<D: Disk, W: Write>(
    alloc: Global,
    tables: &PagedTables,
    disk: &mut D,
    out: &mut W,
) -> Result<(), Fault>
    requires { LieInside (length (D.life disk.old).seen) tables.now.tables }
    ensures told { IsTrue D.is_modelled → AreOnPages (D.life disk.old).seen tables.now.tables → IsWritten (list_text (store_in tables.now)) result (W.contents out.old) (W.contents out.new) }
    ensures cause { IfErr result IsOfDevice }
{
    match store_dump::list_tables(alloc, tables, disk, out) {
        Ok(()) => flush(out),
        Err(error) => Err(fault_of(error)),
    }
}

// What is reported of tables that were not written whole. A page that is none is one that the device gave back otherwise than it
// was when the store was opened.
fn fault_of(error: DumpError) -> Fault
    ensures { IsOfDevice result }
{
    match error {
        DumpError::NoMemory => Fault::NoMemory,
        DumpError::DeviceFailed | DumpError::Damaged | DumpError::NotWritten => Fault::Device,
    }
}

// A comment for each unit in doubt.
fn comment_text<D: Disk + Drop>(alloc: Global, core: &DurableCore<D>) -> Result<String, AllocError>
    ensures { IfOk result (λ text. string_bytes text ≡ comment_text (listed_in core.now.state.branches)) }
{
    let mut left = core.in_doubt();
    let mut text = String::new(alloc);
    while let Some(xid) = left.next() {
        push_comment(alloc, &mut text, xid, core.branch_state(xid))?;
    }
    Ok(text)
}

// The comment of a unit in doubt, by its XID and where its branch stands.
fn push_comment(
    alloc: Global,
    text: &mut String,
    xid: &Xid,
    state: Option<BranchState>,
) -> Result<(), AllocError>
    ensures { OnOk result (string_bytes text.new ≡ string_bytes text.old ++ comment_line (xid.now, outcome_at state)) }
{
    text.push_str(COMMENT)?;
    push_named(alloc, text, xid, state)?;
    Ok(())
}

// The XID of a unit in doubt in one word, with how it was decided heuristically, where it was.
fn push_named(
    alloc: Global,
    text: &mut String,
    xid: &Xid,
    state: Option<BranchState>,
) -> Result<(), AllocError>
    ensures { OnOk result (string_bytes text.new ≡ string_bytes text.old ++ named_line (xid.now, outcome_at state)) }
{
    let word = xid_word(alloc, xid)?;
    match writeln!(text, "{}{}", word.as_str(), outcome_word(state)) {
        Ok(()) => Ok(()),
        Err(_) => Err(AllocError),
    }
}
