//! Reading the records back.
ghost use Rattle.std.specs.Prelude.{◌≡◌, ◌+◌, ◌-◌, ◌^◌, ◌<◌, ◌≤◌, List, IsTrue, length, IfOk, IfSome, IsNone};
ghost use Rattle.std.specs.Int.{w32, from_be_bytes, to_be_bytes};
ghost use Rattle.drda_disk.specs.Disk.{Only, Stays};
ghost use Rattle.drda_disk.specs.Region.{end_of};
ghost use Rattle.unit_journal.specs.Record.{Entry};
ghost use Rattle.unit_journal.specs.Stands.{Stands};
ghost use Rattle.unit_journal.specs.Open.{ReadsNext, IsWhole, CountsOpen};

use crate::record::HEAD_BYTES;
use crate::{Journal, Kind, OpenError, Record};
use drda_disk::{Disk, OPEN_GATE, Region, read_bytes};
use std::alloc::Global;

/// A number by its four bytes.
fn number_of(bytes: [u8; 4]) -> u32
    ensures number { result ≡ from_be_bytes w32 bytes }
    ensures bytes { to_be_bytes w32 result ≡ bytes }
{
    let [a, b, c, d] = bytes;
    u32::from_be_bytes([a, b, c, d])
}

/// The gate at an offset with too few bytes behind it for a record.
fn read_last_gate<D: Disk>(
    disk: &mut D,
    at: usize,
    limit: usize,
) -> Result<Option<Record>, OpenError>
    requires before { at < limit }
    requires last { limit < at + 7 }
    requires inside { limit ≤ length (D.life disk.old).seen }
    ensures next { IsTrue D.is_modelled → ReadsNext (D.life disk.old).seen at limit result }
    ensures none { IfOk result (λ found. IsNone found) }
    ensures stays { Stays (D.life disk.old) (D.life disk.new) }
    ensures cause { CountsOpen result (D.life disk.old).faults (D.life disk.new).faults }
{
    let mut gate = [0u8; 1];
    disk.read_at(at, &mut gate)?;
    if gate[0] != OPEN_GATE {
        return Ok(None);
    }
    Err(OpenError::Damaged { at })
}

/// The record at an offset below `limit`, if its gate is open.
fn read_record<D: Disk>(
    alloc: Global,
    disk: &mut D,
    at: usize,
    limit: usize,
) -> Result<Option<Record>, OpenError>
    requires before { at < limit }
    requires inside { limit ≤ length (D.life disk.old).seen }
    ensures next { IsTrue D.is_modelled → ReadsNext (D.life disk.old).seen at limit result }
    ensures room { IfOk result (λ found. IfSome found (λ r. at + 6 + length r.body.items < limit)) }
    ensures stays { Stays (D.life disk.old) (D.life disk.new) }
    ensures cause { CountsOpen result (D.life disk.old).faults (D.life disk.new).faults }
{
    let room = limit - at - 1;
    if room < HEAD_BYTES {
        return read_last_gate(disk, at, limit);
    }
    let mut head = [0u8; HEAD_BYTES];
    disk.read_at(at, &mut head)?;
    if head[0] != OPEN_GATE {
        return Ok(None);
    }
    let Some(kind) = Kind::from_code(head[1]) else {
        return Err(OpenError::Damaged { at });
    };
    let len = number_of([head[2], head[3], head[4], head[5]]) as usize;
    if len > room - HEAD_BYTES {
        return Err(OpenError::Damaged { at });
    }
    let body = read_bytes(alloc, disk, at + HEAD_BYTES, len)?;
    Ok(Some(Record { at, kind, body }))
}

impl Journal {
    ghost use Rattle.unit_journal.specs.Adding.{IsPlace};
    ghost use Rattle.unit_journal.specs.Opened.{ReadsRegion, IsOpened};
    ghost use Rattle.unit_journal.specs.Journal.{region_of, held_of};

    /// The journal of a region, and its records in order: those up to the first closed gate. Nothing
    /// is written, and nothing is held. The region has at least a byte and at most 2^32, and lies in
    /// the disk. A crash leaves what is read, as behind a sync: so what is found is there to stay.
    ///
    /// `Damaged` comes exactly where an open gate has no record behind it: its kind is not known, or
    /// the record runs past the region less one byte. Its `at` is that gate's offset on the disk, and
    /// the first such gate counts.
    pub fn open<D: Disk>(
        alloc: Global,
        disk: &mut D,
        region: Region,
    ) -> Result<(Journal, Vec<Record>), OpenError>
        requires place { IsPlace (length (D.life disk.old).seen) region }
        requires settled { Only (D.life disk.old) }
        ensures reads { IsTrue D.is_modelled → ReadsRegion region D.is_modelled (D.life disk.old).seen (D.life disk.new) result }
        // Where these records stand there, they are found and no damage is told.
        ensures found { (es : List Entry) → IsTrue D.is_modelled → Stands region es (D.life disk.old).seen → IfOk result (IsOpened D.is_modelled (D.life disk.new) region es) }
        ensures whole { (es : List Entry) → IsTrue D.is_modelled → Stands region es (D.life disk.old).seen → IsWhole result }
        ensures region { IfOk result (λ r. (region_of r.0 ≡ region) × (held_of r.0 ≡ 0)) }
        ensures stays { Stays (D.life disk.old) (D.life disk.new) }
        ensures cause { CountsOpen result (D.life disk.old).faults (D.life disk.new).faults }
    {
        let limit = region.at + region.length;
        let mut records = Vec::new(alloc);
        let mut at = region.at;
        while let Some(record) = read_record(alloc, disk, at, limit)? {
            at += HEAD_BYTES + record.body.len();
            records.push(record)?;
        }
        let journal = Journal {
            region,
            next: at,
            held: 0,
        };
        Ok((journal, records))
    }
}
