//! Records that are put together before they are added at once.
ghost use Rattle.std.specs.Prelude.{◌≡◌, ◌↔◌, IsTrue, ◌-◌, ◌<◌, ◌++◌, ◌∷◌, [], length, slice_set, OnOk, OnErr};
ghost use Rattle.drda_disk.specs.Layout.{open_gate};
ghost use Rattle.unit_journal.specs.Record.{laid};
ghost use Rattle.unit_journal.specs.LaidRecord.{entry_in};

use crate::LaidRecord;
use drda_disk::OPEN_GATE;
use std::alloc::AllocError;
use std::marker::Model;

/// Records as they go onto the disk at once, one behind another: all but the gate of the first. The
/// gates of the others are open, and behind the last record stands the closed gate of the next one.
/// There is one record at least.
///
/// Contracts see the records.
#[derive(Drop)]
pub struct LaidGroup {
    bytes: Vec<u8>,
}

impl Model for LaidGroup {
    ghost use Rattle.std.specs.Prelude.{List};
    ghost use Rattle.unit_journal.specs.Record.{Entry};
    ghost use Rattle.unit_journal.specs.LaidGroup.{entries_behind, IsLaid};

    ghost Value = { List Entry };

    ghost view = { λ g. entries_behind g.bytes.items };

    ghost invariant = { λ g. IsLaid g.bytes.items };
}

/// Opens the gate that the bytes end with, and puts the bytes of its record behind it.
fn put_behind(bytes: &mut Vec<u8>, more: &[u8]) -> Result<(), AllocError>
    requires { 0 < length bytes.old.items }
    ensures ok { OnOk result (bytes.new.items ≡ slice_set (bytes.old.items ++ more.now) (length bytes.old.items - 1) open_gate) }
    ensures err { OnErr result (bytes.new.items ≡ bytes.old.items) }
{
    let gate = bytes.len() - 1;
    bytes.extend_from_slice(more)?;
    bytes[gate] = OPEN_GATE;
    Ok(())
}

impl LaidGroup {
    /// The group of one record. It takes no memory.
    pub fn of(first: LaidRecord) -> LaidGroup
        ensures { result ≡ entry_in first ∷ [] }
    {
        LaidGroup {
            bytes: first.into_bytes(),
        }
    }

    /// Puts a copy of a record behind the others. Where memory is refused the group is as it was.
    pub fn push(&mut self, next: &LaidRecord) -> Result<(), AllocError>
        ensures ok { OnOk result (self.new ≡ self.old ++ entry_in next.now ∷ []) }
        ensures err { OnErr result (self.new ≡ self.old) }
    {
        put_behind(&mut self.bytes, next.bytes())?;
        Ok(())
    }

    /// How many bytes its records take in a journal.
    pub fn len(&self) -> usize
        ensures { result ≡ length (laid self.now) }
    {
        self.bytes().len()
    }

    /// Whether both have the same records.
    pub fn is_same(&self, other: &LaidGroup) -> bool
        ensures { IsTrue result ↔ (self.now ≡ other.now) }
    {
        self.bytes == other.bytes
    }

    /// What is written behind the gate of the first.
    pub(crate) fn bytes(&self) -> &[u8]
        ensures bytes { open_gate ∷ result.now ≡ laid self.now ++ 0 ∷ [] }
        ensures len { length result.now ≡ length (laid self.now) }
    {
        &self.bytes
    }
}
