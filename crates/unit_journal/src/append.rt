//! Adding a record, or several at once.
ghost use Rattle.std.specs.Prelude.{◌≡◌, ◌+◌, ◌^◌, ◌<◌, ◌≤◌, ◌++◌, ◌∷◌, [], List, length, OnErr};
ghost use Rattle.unit_journal.specs.Adding.{Adds, MayAdd};
ghost use Rattle.drda_disk.specs.Errors.{OnFull};
ghost use Rattle.drda_disk.specs.Layout.{open_gate};
ghost use Rattle.unit_journal.specs.Errors.{Lacks};
ghost use Rattle.unit_journal.specs.Journal.{held_of, room_of};
ghost use Rattle.unit_journal.specs.LaidRecord.{entry_in};
ghost use Rattle.unit_journal.specs.Record.{Entry, laid};

use crate::{Journal, LaidGroup, LaidRecord};
use drda_disk::{Disk, Full, OPEN_GATE, WriteError, write_through};

impl Journal {
    /// Adds a record. Once this succeeds the record outlasts a crash; a crash at any moment before
    /// leaves it whole or leaves the records without it.
    ///
    /// With it the journal holds `hold` more bytes back and `release` fewer, at most all that it
    /// holds. `Full` comes exactly where the record and `hold` are longer than the room and `release`,
    /// before any device call. On an error the journal is as it was; but after `DeviceFailed` it is not
    /// used again: whether the record is there shows when it is opened anew.
    pub fn append<D: Disk>(
        &mut self,
        disk: &mut D,
        laid: &LaidRecord,
        hold: usize,
        release: usize,
    ) -> Result<(), WriteError>
        requires may { MayAdd (length (D.life disk.old).seen) self.old (6 + length (entry_in laid.now).body) hold release }
        // A crash at any moment of the call leaves the records from before it, with the new one or without.
        ensures adds { Adds D.is_modelled (D.life disk.old) (D.life disk.new) self.old self.new (entry_in laid.now ∷ []) (6 + length (entry_in laid.now).body) hold release result }
        ensures same { OnErr result (self.new ≡ self.old) }
        ensures refused { OnFull result ((self.new ≡ self.old) × (disk.new ≡ disk.old)) }
    {
        self.append_behind(disk, laid.bytes(), hold, release)
    }

    /// Adds the records of a group, all of them or none, with two writes and two syncs for any number
    /// of them. Once this succeeds they outlast a crash; a crash at any moment before leaves all of
    /// them or leaves the records without them.
    ///
    /// With them the journal holds `hold` more bytes back and `release` fewer, at most all that it
    /// holds. `Full` comes exactly where the records and `hold` are longer than the room and `release`,
    /// before any device call. On an error the journal is as it was; but after `DeviceFailed` it is not
    /// used again: whether the records are there shows when it is opened anew.
    pub fn append_group<D: Disk>(
        &mut self,
        disk: &mut D,
        group: &LaidGroup,
        hold: usize,
        release: usize,
    ) -> Result<(), WriteError>
        requires may { MayAdd (length (D.life disk.old).seen) self.old (length (laid group.now)) hold release }
        // A crash at any moment of the call leaves the records from before it, with all of the group or without.
        ensures adds { Adds D.is_modelled (D.life disk.old) (D.life disk.new) self.old self.new group.now (length (laid group.now)) hold release result }
        ensures same { OnErr result (self.new ≡ self.old) }
        ensures refused { OnFull result ((self.new ≡ self.old) × (disk.new ≡ disk.old)) }
    {
        self.append_behind(disk, group.bytes(), hold, release)
    }

    /// What records of so many bytes lack, with `hold` more bytes held back and `release` fewer.
    pub(crate) fn lacks(&self, bytes: usize, hold: usize, release: usize) -> Option<Full>
        requires counted { bytes + hold < 2 ^ 64 }
        requires released { release ≤ held_of self.now }
        ensures { Lacks result (bytes + hold) release (room_of self.now) }
    {
        let need = bytes + hold;
        let room = self.room();
        if need > room + release {
            return Some(Full {
                need: need - release,
                room,
            });
        }
        None
    }

    /// Adds the records that these bytes spell behind an open gate.
    fn append_behind<D: Disk>(
        &mut self,
        disk: &mut D,
        bytes: &[u8],
        hold: usize,
        release: usize,
    ) -> Result<(), WriteError>
        requires may { MayAdd (length (D.life disk.old).seen) self.old (length bytes.now) hold release }
        ensures adds { (gs : List Entry) → open_gate ∷ bytes.now ≡ laid gs ++ 0 ∷ []
            → Adds D.is_modelled (D.life disk.old) (D.life disk.new) self.old self.new gs (length bytes.now) hold release result }
        ensures same { OnErr result (self.new ≡ self.old) }
        ensures refused { OnFull result ((self.new ≡ self.old) × (disk.new ≡ disk.old)) }
    {
        match self.lacks(bytes.len(), hold, release) {
            Some(full) => return Err(WriteError::Full(full)),
            None => {}
        }
        write_through(disk, self.next + 1, bytes)?;
        write_through(disk, self.next, &[OPEN_GATE])?;
        self.next += bytes.len();
        self.held = self.held - release + hold;
        Ok(())
    }
}
