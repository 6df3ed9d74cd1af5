//! Laying records into a region that does not count yet.
ghost use Rattle.std.specs.Prelude.{◌≡◌, ◌+◌, ◌-◌, ◌^◌, ◌<◌, ◌≤◌, ◌++◌, ◌∷◌, [], min, ℕ, List, IsTrue, OnOk, IfOk, length};
ghost use Rattle.drda_disk.specs.Disk.{LeavesOnly, Torn, Within};
ghost use Rattle.drda_disk.specs.Region.{end_of, SameOutside};
ghost use Rattle.drda_disk.specs.Layout.{open_gate};
ghost use Rattle.unit_journal.specs.Record.{laid, behind, entry_of, entries_of};
ghost use Rattle.unit_journal.specs.Stands.{Stands};
ghost use Rattle.unit_journal.specs.Errors.{SaysFullToLay, OnRefusedToLay, CountsLay};

use crate::record::{HEAD_BYTES, head_of};
use crate::{Journal, LayError, Record};
use drda_disk::{CLOSED_GATE, Disk, Full, Region};
use std::alloc::{AllocError, Global};

/// How many bytes records take that are laid one behind another, up to 2^64 - 1.
pub fn laid_len(records: &[Record]) -> usize
    ensures { result ≡ min (length (laid (entries_of records.now))) (2 ^ 64 - 1) }
{
    let mut sum = 0usize;
    for item in records {
        sum = sum
            .saturating_add(HEAD_BYTES)
            .saturating_add(item.body.len());
    }
    sum
}

/// Puts a record behind other bytes, with an open gate.
fn push_record(bytes: &mut Vec<u8>, item: &Record) -> Result<(), AllocError>
    requires { length item.now.body.items < 2 ^ 32 }
    ensures { OnOk result (bytes.new.items ≡ bytes.old.items ++ open_gate ∷ behind (entry_of item.now)) }
{
    bytes.extend_from_slice(&head_of(item.kind, item.body.len() as u32))?;
    bytes.extend_from_slice(&item.body)?;
    Ok(())
}

/// The bytes of the records, `len` of them, and a closed gate behind them.
fn laid_bytes(alloc: Global, records: &[Record], len: usize) -> Result<Vec<u8>, AllocError>
    requires len { len ≡ length (laid (entries_of records.now)) }
    requires small { len < 2 ^ 32 }
    ensures { IfOk result (λ bytes. bytes.items ≡ laid (entries_of records.now) ++ 0 ∷ []) }
{
    let mut bytes = Vec::with_capacity(alloc, len + 1)?;
    for item in records {
        push_record(&mut bytes, item)?;
    }
    bytes.push(CLOSED_GATE)?;
    Ok(bytes)
}

impl Journal {
    ghost use Rattle.unit_journal.specs.Adding.{IsLaidIn, IsPlace};

    /// Lays these records and no others into a region, with open gates and a closed gate behind them,
    /// by one write, and makes their journal, which holds `held` bytes back. Nothing is synced, so a
    /// crash may leave any bytes in the region: it has to be one whose records do not count yet. The
    /// region has at least a byte and at most 2^32, and lies in the disk.
    ///
    /// `Full` comes exactly where the records and `held` are longer than the room of an empty journal,
    /// the region less one byte; its `need` stops at 2^64 - 1. It and `NoMemory` come before any
    /// device call.
    pub fn lay<D: Disk>(
        alloc: Global,
        disk: &mut D,
        region: Region,
        records: &[Record],
        held: usize,
    ) -> Result<Journal, LayError>
        requires place { IsPlace (length (D.life disk.old).seen) region }
        ensures laid { IsTrue D.is_modelled → OnOk result (Stands region (entries_of records.now) (D.life disk.new).seen) }
        ensures begins { IfOk result (IsLaidIn region (entries_of records.now) held) }
        ensures within { (from m : ℕ) (base : List ℕ) → from ≤ region.at → end_of region ≤ from + m → Within from m base (D.life disk.old)
            → LeavesOnly (D.life disk.old) (D.life disk.new) (Torn from m base) }
        ensures others { SameOutside region (D.life disk.old).seen (D.life disk.new).seen }
        ensures full { SaysFullToLay result (length (laid (entries_of records.now)) + held) (region.length - 1) }
        ensures refused { OnRefusedToLay result (disk.new ≡ disk.old) }
        ensures cause { CountsLay result (D.life disk.old).faults (D.life disk.new).faults }
    {
        let len = laid_len(records);
        let need = len.saturating_add(held);
        let room = region.length - 1;
        if need > room {
            return Err(LayError::Full(Full { need, room }));
        }
        let bytes = laid_bytes(alloc, records, len)?;
        disk.write_at(region.at, &bytes)?;
        Ok(Journal {
            region,
            next: region.at + len,
            held,
        })
    }
}
