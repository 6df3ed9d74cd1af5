//! A file as a disk.
ghost use Rattle.std.specs.Prelude.{◌≡◌, ◌+◌, ◌≤◌, IsTrue, false, length, replicate, Some, IsErr, OnOk, OnErr, IfOk, IsSome};
ghost use Rattle.drda_words.specs.Place.{part};
ghost use Rattle.drda_disk.specs.Disk.{overlaid, Stays, Tears, Only, CountsFault};
ghost use Rattle.drda_disk.specs.File.{with_faults};
ghost use Rattle.drda_disk.specs.Count.{count_of};

use crate::count::FaultCount;
use crate::transfer::{read_all, write_all};
use crate::{DeviceFault, Disk, DiskFault, FilePlace, Flushed, Flusher, PositionalFile};
use std::io;
use thiserror::Error;

/// Why a file can't be had as a disk.
#[derive(Debug, Drop, Error)]
pub enum FileFault {
    /// Another disk is open over this file.
    #[error("the file is in use")]
    InUse,
    #[error(transparent)]
    Io(#[from] io::Error),
}

/// A file of a fixed size as a disk. Each read and write goes on until its whole range is done, and
/// each sync is one of the file, up to the first that fails: then what the file holds is not known
/// any more, and no later sync of this disk succeeds.
///
/// Where the platform has advisory locks the file is locked while the disk is open, so that a second
/// one over the same file is refused. This is a courtesy to operators and part of no promise.
#[derive(Drop)]
pub struct FileDisk<F: PositionalFile> {
    file: F,
    faults: FaultCount,
    last_fault: Option<DeviceFault>,
    has_lost_sync: bool,
}

impl<F: PositionalFile + Drop> FileDisk<F> {
    ghost use Rattle.drda_disk.specs.FileDisk.{file_of, own_faults_of, has_lost_sync};

    /// Makes a file of `size` zeros at a place where no file is, locked. When it is returned, its zeros and its folder's entry outlast a
    /// crash, of a file and a folder that keep what was written. Where one of these steps fails, the file is taken away again if it can be.
    /// Memory on the device is not set aside: a device that is full fails a later write.
    pub fn create<P: FilePlace<File = F>>(
        place: &mut P,
        size: usize,
    ) -> Result<FileDisk<F>, FileFault>
        ensures size { IfOk result (λ disk. length (F.life (file_of disk)).seen ≡ size) }
        ensures zeros { IfOk result (λ disk. IsTrue F.is_modelled → (F.life (file_of disk)).seen ≡ replicate size 0) }
        ensures durable { IfOk result (λ disk. IsTrue F.is_modelled → Only (F.life (file_of disk))) }
        ensures kept { OnOk result (IsTrue P.is_modelled → IsTrue (P.is_kept place.new)) }
        ensures faults { IfOk result (λ disk. own_faults_of disk ≡ 0) }
        ensures usable { IfOk result (λ disk. has_lost_sync disk ≡ false) }
    {
        let mut file = place.create()?;
        if let Err(fault) = prepare(place, &mut file, size) {
            place.remove();
            return Err(fault);
        }
        Ok(FileDisk::over(file))
    }

    /// The file at a place, locked, with the length that it has now.
    pub fn open<P: FilePlace<File = F>>(place: &mut P) -> Result<FileDisk<F>, FileFault>
        ensures faults { IfOk result (λ disk. own_faults_of disk ≡ 0) }
        ensures usable { IfOk result (λ disk. has_lost_sync disk ≡ false) }
    {
        let mut file = place.open()?;
        file.lock()?;
        Ok(FileDisk::over(file))
    }

    /// An open file as a disk.
    pub fn over(file: F) -> FileDisk<F>
        ensures file { file_of result ≡ file }
        ensures faults { own_faults_of result ≡ 0 }
        ensures usable { has_lost_sync result ≡ false }
    {
        FileDisk {
            file,
            faults: FaultCount::new(),
            last_fault: None,
            has_lost_sync: false,
        }
    }
}

impl<F: PositionalFile> FileDisk<F> {
    ghost use Rattle.drda_disk.specs.FileDisk.{file_of, own_faults_of, has_lost_sync, last_fault_of};

    /// The file, to be looked at.
    pub fn file(&self) -> &F
        ensures { result.now ≡ file_of self.now }
    {
        &self.file
    }

    /// Why the last call that failed did, for messages.
    pub fn last_fault(&self) -> Option<DeviceFault>
        ensures { result ≡ last_fault_of self.now }
    {
        self.last_fault
    }

    /// Counts the fault, and keeps its name.
    fn note(&mut self, fault: DeviceFault) -> DiskFault
        ensures file { file_of self.new ≡ file_of self.old }
        ensures faults { own_faults_of self.new ≡ own_faults_of self.old + 1 }
        ensures named { last_fault_of self.new ≡ Some fault }
        ensures usable { has_lost_sync self.new ≡ has_lost_sync self.old }
    {
        self.faults.raise();
        self.last_fault = Some(fault);
        DiskFault
    }
}

/// Locks a new file, gives it its size, and syncs it and its folder's entry.
fn prepare<F: PositionalFile, P: FilePlace<File = F>>(
    place: &mut P,
    file: &mut F,
    size: usize,
) -> Result<(), FileFault>
    ensures size { OnOk result (length (F.life file.new).seen ≡ size) }
    ensures zeros { OnOk result (IsTrue F.is_modelled → (F.life file.new).seen ≡ replicate size 0) }
    ensures durable { OnOk result (IsTrue F.is_modelled → Only (F.life file.new)) }
    ensures kept { OnOk result (IsTrue P.is_modelled → IsTrue (P.is_kept place.new)) }
{
    file.lock()?;
    file.lengthen(size)?;
    file.sync()?;
    place.sync_folder()?;
    Ok(())
}

impl<F: PositionalFile> Disk for FileDisk<F> {
    ghost use Rattle.drda_disk.specs.FileDisk.{life_of, file_of, has_lost_sync, last_fault_of};

    ghost is_modelled = { F.is_modelled };

    ghost life = { λ f. with_faults (F.life f.file) (count_of f.faults) };

    ghost read_is_image = { λ f. F.read_is_image f.file };

    ghost now_counts = { λ f. F.now_counts f.file };

    fn size(&self) -> usize {
        self.file.len()
    }

    fn failures(&self) -> u64 {
        self.faults.get()
    }

    fn read_at(&mut self, at: usize, into: &mut [u8]) -> Result<(), DiskFault>
        requires { at + length into.old ≤ length (life_of F.life self.old).seen }
        ensures read { OnOk result (IsTrue F.is_modelled → into.new ≡ part (life_of F.life self.old).seen at (length into.old)) }
        ensures stays { Stays (life_of F.life self.old) (life_of F.life self.new) }
        ensures faults { CountsFault result (life_of F.life self.old).faults (life_of F.life self.new).faults }
        ensures named { OnErr result (IsSome (last_fault_of self.new)) }
    {
        let size = self.file.len();
        prove!(at <= size && into.len() <= size - at);
        match read_all(&mut self.file, at, into) {
            Ok(()) => Ok(()),
            Err(fault) => Err(self.note(fault)),
        }
    }

    fn write_at(&mut self, at: usize, bytes: &[u8]) -> Result<(), DiskFault>
        requires { at + length bytes.now ≤ length (life_of F.life self.old).seen }
        ensures written { OnOk result (IsTrue F.is_modelled → (life_of F.life self.new).seen ≡ overlaid (life_of F.life self.old).seen at bytes.now) }
        ensures tears { Tears at (length bytes.now) (life_of F.life self.old) (life_of F.life self.new) }
        ensures faults { CountsFault result (life_of F.life self.old).faults (life_of F.life self.new).faults }
        ensures named { OnErr result (IsSome (last_fault_of self.new)) }
    {
        let size = self.file.len();
        prove!(at <= size && bytes.len() <= size - at);
        match write_all(&mut self.file, at, bytes) {
            Ok(()) => Ok(()),
            Err(fault) => Err(self.note(fault)),
        }
    }

    fn sync(&mut self) -> Result<(), DiskFault>
        ensures durable { OnOk result (Only (life_of F.life self.new)) }
        ensures stays { Stays (life_of F.life self.old) (life_of F.life self.new) }
        ensures faults { CountsFault result (life_of F.life self.old).faults (life_of F.life self.new).faults }
        ensures named { OnErr result (IsSome (last_fault_of self.new)) }
        ensures loses { OnErr result (IsTrue (has_lost_sync self.new)) }
        ensures lost { IsTrue (has_lost_sync self.old) → IsErr result × (file_of self.new ≡ file_of self.old) }
    {
        if self.has_lost_sync {
            return Err(self.note(DeviceFault::SyncFailed));
        }
        match self.file.sync() {
            Ok(()) => Ok(()),
            Err(error) => {
                self.has_lost_sync = true;
                Err(self.note(DeviceFault::System(error.kind())))
            }
        }
    }

    fn flusher(&self) -> Flusher {
        self.file.flusher()
    }

    fn settle(&mut self, flushed: Flushed) -> Result<(), DiskFault>
        ensures durable { OnOk result (Only (life_of F.life self.new)) }
        ensures stays { Stays (life_of F.life self.old) (life_of F.life self.new) }
        ensures faults { CountsFault result (life_of F.life self.old).faults (life_of F.life self.new).faults }
        ensures named { OnErr result (IsSome (last_fault_of self.new)) }
        ensures loses { OnErr result (IsTrue (has_lost_sync self.new)) }
        ensures lost { IsTrue (has_lost_sync self.old) → IsErr result × (file_of self.new ≡ file_of self.old) }
    {
        if self.has_lost_sync {
            return Err(self.note(DeviceFault::SyncFailed));
        }
        if let Err(error) = self.file.settle(flushed) {
            self.has_lost_sync = true;
            return Err(self.note(DeviceFault::System(error.kind())));
        }
        Ok(())
    }
}
