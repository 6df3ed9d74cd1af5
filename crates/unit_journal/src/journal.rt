//! A journal: a region of a disk, where the next record goes, and the bytes held back.
ghost use Rattle.std.specs.Prelude.{◌≡◌, ◌+◌, ◌-◌, ◌^◌, ◌<◌, ◌≤◌, [], IsTrue, MatchResult, OnOk, OnErr, IfOk, length};
ghost use Rattle.drda_disk.specs.Region.{end_of, SameOutside};
ghost use Rattle.drda_disk.specs.Disk.{Only, LeavesOnly, CountsFault};

use drda_disk::{CLOSED_GATE, Disk, DiskFault, Full, Region, write_through};

/// The records of a region of a disk, one behind another from its first byte on, with a closed gate
/// behind the last. Some of the room behind that can be held back for records to come.
#[derive(Debug, Drop)]
pub struct Journal {
    pub(crate) region: Region,
    /// The offset of the closed gate behind the last record.
    pub(crate) next: usize,
    pub(crate) held: usize,
    ghost begins: { region.at ≤ next },
    ghost fits: { next + 1 + held ≤ region.at + region.length },
    ghost small: { region.length ≤ 2 ^ 32 },
}

impl Journal {
    ghost use Rattle.unit_journal.specs.Adding.{IsPlace};
    ghost use Rattle.unit_journal.specs.Journal.{IsSettled, region_of, next_of, held_of, room_of};

    /// An empty journal, whatever the region held. The region has at least a byte and at most 2^32,
    /// and lies in the disk. On a fault the region may hold any bytes, so it is not for a region
    /// whose records still count.
    pub fn start<D: Disk>(disk: &mut D, region: Region) -> Result<Journal, DiskFault>
        requires place { IsPlace (length (D.life disk.old).seen) region }
        ensures empty { IsTrue D.is_modelled → IfOk result (λ journal. IsSettled D.is_modelled (D.life disk.new) journal []) }
        ensures region { IfOk result (λ journal. region_of journal ≡ region) }
        ensures held { IfOk result (λ journal. held_of journal ≡ 0) }
        ensures room { IfOk result (λ journal. room_of journal ≡ region.length - 1) }
        ensures any_moment { Only (D.life disk.old) → LeavesOnly (D.life disk.old) (D.life disk.new) (SameOutside region (D.life disk.old).seen) }
        ensures others { SameOutside region (D.life disk.old).seen (D.life disk.new).seen }
        ensures cause { CountsFault result (D.life disk.old).faults (D.life disk.new).faults }
    {
        write_through(disk, region.at, &[CLOSED_GATE])?;
        Ok(Journal {
            region,
            next: region.at,
            held: 0,
        })
    }

    /// The part of the disk that it has.
    pub fn region(&self) -> Region
        ensures { result ≡ region_of self.now }
    {
        self.region
    }

    /// How many bytes are held back.
    pub fn held(&self) -> usize
        ensures { result ≡ held_of self.now }
    {
        self.held
    }

    /// How many bytes are left for records: those behind the last one, but for a closed gate and for
    /// the bytes that are held.
    pub fn room(&self) -> usize
        ensures { result ≡ room_of self.now }
    {
        self.region.at + self.region.length - self.next - 1 - self.held
    }

    /// Holds so many bytes of the room back, for a record that is to find room later.
    pub fn hold(&mut self, bytes: usize) -> Result<(), Full>
        ensures full { MatchResult result (λ _. bytes ≤ room_of self.old) (λ full. (full.need ≡ bytes) × (full.room ≡ room_of self.old) × (room_of self.old < bytes)) }
        ensures ok { OnOk result (held_of self.new ≡ held_of self.old + bytes) }
        ensures same { OnOk result ((region_of self.new ≡ region_of self.old) × (next_of self.new ≡ next_of self.old)) }
        ensures err { OnErr result (self.new ≡ self.old) }
    {
        let room = self.room();
        if bytes > room {
            return Err(Full { need: bytes, room });
        }
        self.held += bytes;
        Ok(())
    }
}
