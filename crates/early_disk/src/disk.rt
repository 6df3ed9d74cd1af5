//! Such a disk as a disk.

use crate::early::{EarlyByte, EarlyDisk};
use crate::rule::EarlyRule;
use drda_disk::{Disk, DiskFault, Flushed, Flusher};

impl<D: Disk, P: EarlyRule> Disk for EarlyDisk<D, P> {
    ghost use Rattle.early_disk.specs.Early.{life_of};
    ghost use Rattle.early_disk.specs.Shown.{counts, read_is_image};

    ghost is_modelled = { D.is_modelled };

    ghost life = { λ d. life_of D.is_modelled D.life d };

    ghost read_is_image = { λ d. read_is_image D.is_modelled D.life d.shown };

    ghost now_counts = { λ d. counts D.is_modelled D.life d.shown };

    fn size(&self) -> usize {
        self.inner.size()
    }

    fn failures(&self) -> u64 {
        self.inner.failures()
    }

    fn read_at(&mut self, at: usize, into: &mut [u8]) -> Result<(), DiskFault> {
        self.clear(at, into.len())?;
        self.inner.read_at(at, into)?;
        Ok(())
    }

    fn write_at(&mut self, at: usize, bytes: &[u8]) -> Result<(), DiskFault> {
        if self.is_early(at, bytes) {
            self.early = None;
            self.shown.note_write(&self.inner);
            return Ok(());
        }
        self.take_back()?;
        self.is_settled = false;
        let written = self.inner.write_at(at, bytes);
        self.shown.note_write(&self.inner);
        written
    }

    fn sync(&mut self) -> Result<(), DiskFault> {
        if !self.is_settled {
            self.inner.sync()?;
            self.is_settled = true;
        }
        self.shown.note_sync();
        Ok(())
    }

    fn flusher(&self) -> Flusher {
        self.inner.flusher()
    }

    fn settle(&mut self, flushed: Flushed) -> Result<(), DiskFault> {
        self.inner.settle(flushed)?;
        self.is_settled = true;
        self.shown.note_sync();
        Ok(())
    }

    ghost allows = { P.allows };

    fn write_early(&mut self, at: usize, byte: u8) -> Result<bool, DiskFault> {
        self.take_back()?;
        let mut was = [0u8; 1];
        self.inner.read_at(at, &mut was)?;
        let written = self.inner.write_at(at, &[byte]);
        self.is_settled = false;
        self.early = Some(EarlyByte {
            at,
            byte,
            was: was[0],
            is_written: written.is_ok(),
        });
        written?;
        Ok(true)
    }
}

impl<D: Disk, P: EarlyRule> EarlyDisk<D, P> {
    ghost use Rattle.std.specs.Prelude.{◌≡◌, ◌⊎◌, ◌+◌, ◌≤◌, ◌∷◌, [], IfSome, IsSomeAnd, OnOk, true};
    ghost use Rattle.drda_disk.specs.Disk.{CountsFault};

    // Takes the early byte back, where it stands in this range.
    fn clear(&mut self, at: usize, len: usize) -> Result<(), DiskFault>
        ensures faults { CountsFault result (D.life self.old.inner).faults (D.life self.new.inner).faults }
        ensures apart { OnOk result (IfSome self.new.early (λ e. (at + len ≤ e.at) ⊎ (e.at + 1 ≤ at))) }
        ensures shown { self.new.shown ≡ self.old.shown }
    {
        match self.early {
            Some(early) if at <= early.at && early.at - at < len => self.take_back(),
            Some(_) => Ok(()),
            None => Ok(()),
        }
    }

    // Whether these bytes are the early one, at its place.
    fn is_early(&self, at: usize, bytes: &[u8]) -> bool
        ensures { result ≡ true → IsSomeAnd self.now.early (λ e. (e.at ≡ at) × (bytes.now ≡ e.byte ∷ []) × (e.is_written ≡ true)) }
    {
        let Some(early) = self.early else {
            return false;
        };
        match bytes {
            [byte] => early.at == at && early.byte == *byte && early.is_written,
            _ => false,
        }
    }
}
