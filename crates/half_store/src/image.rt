//! Writing an image into the half that is not active.
ghost use Rattle.std.specs.Prelude.{◌≡◌, ◌+◌, ◌-◌, ◌*◌, ◌^◌, ◌<◌, ◌≤◌, IsTrue, List, ℕ, length, OnOk};
ghost use Rattle.drda_words.specs.Place.{part};
ghost use Rattle.drda_disk.specs.Disk.{Torn, LeavesOnly};
ghost use Rattle.drda_disk.specs.Layout.{page_bytes};

use crate::Half;
use drda_disk::{Disk, Full, PAGE_BYTES, Region, WriteError};

/// Writes an image into the half that is not active, behind its closed gate: its pages one behind
/// another. One that is dropped leaves the active half as it is. Between its calls the disk is only
/// read, or written in the half that is written here, behind its header.
#[derive(Debug, Drop)]
pub struct ImageWriter {
    pub(crate) half: Half,
    pub(crate) half_bytes: usize,
    pub(crate) generation: u64,
    pub(crate) pages: u32,
    ghost small: { half_bytes ≤ 2 ^ 30 },
    ghost fits: { page_bytes * (1 + pages) < half_bytes },
}

impl ImageWriter {
    ghost use Rattle.drda_disk.specs.Region.{end_of};
    ghost use Rattle.half_store.specs.Active.{Store};
    ghost use Rattle.half_store.specs.Writing.{GoesOn, IsKept, IsWriting, TellsPage, half_bytes_of, pages_of, from_of, next_of};
    ghost use Rattle.drda_disk.specs.Errors.{CountsWrite};

    /// Writes a page of 8,192 bytes behind the others. `Full` comes exactly where the half has no
    /// room for it and for a gate behind it; `need` is what the half would take then and `room` what
    /// it has. It comes before any device call.
    pub fn page<D: Disk>(&mut self, disk: &mut D, bytes: &[u8]) -> Result<(), WriteError>
        requires page { length bytes.now ≡ page_bytes }
        requires inside { from_of self.old + half_bytes_of self.old ≤ length (D.life disk.old).seen }
        // No moment of it changes the active half.
        ensures any_moment { (base : List ℕ) (store : Store) → IsWriting D.is_modelled (D.life disk.old) base store self.old →
            LeavesOnly (D.life disk.old) (D.life disk.new) (IsKept base store (from_of self.old + 1) (half_bytes_of self.old - 1)) }
        ensures writing { (base : List ℕ) (store : Store) → IsWriting D.is_modelled (D.life disk.old) base store self.old → IsWriting D.is_modelled (D.life disk.new) base store self.new }
        ensures written { OnOk result (IsTrue D.is_modelled → part (D.life disk.new).seen (next_of self.old) page_bytes ≡ bytes.now) }
        ensures others { Torn (next_of self.old) page_bytes (D.life disk.old).seen (D.life disk.new).seen }
        ensures goes_on { GoesOn result self.old self.new }
        ensures room { TellsPage result self.old (disk.new ≡ disk.old) }
        ensures cause { CountsWrite result (D.life disk.old).faults (D.life disk.new).faults }
    {
        let need = PAGE_BYTES * (2 + self.pages as usize) + 1;
        if need > self.half_bytes {
            return Err(WriteError::Full(Full {
                need,
                room: self.half_bytes,
            }));
        }
        let at = self.half.offset(self.half_bytes) + PAGE_BYTES * (1 + self.pages as usize);
        disk.write_at(at, bytes)?;
        self.pages += 1;
        Ok(())
    }

    /// How many pages were written.
    pub fn pages(&self) -> u32
        ensures { result ≡ pages_of self.now }
    {
        self.pages
    }

    /// What is left of the half behind its pages: its journal's, a byte at least.
    pub fn finish_pages(&self) -> Region
        ensures begins { result.at ≡ next_of self.now }
        ensures ends { end_of result ≡ from_of self.now + half_bytes_of self.now }
        ensures some { 0 < result.length }
    {
        let used = PAGE_BYTES * (1 + self.pages as usize);
        Region {
            at: self.half.offset(self.half_bytes) + used,
            length: self.half_bytes - used,
        }
    }
}
