//! A file that takes a part of what it is asked, is interrupted, and fails, for tests.
ghost use Rattle.std.specs.Prelude.{◌≡◌, ◌≤◌, false, IfOk};
ghost use Rattle.drda_disk.specs.File.{unknown, no_image};

use drda_disk::{FileFault, FilePlace, Flushed, Flusher, PositionalFile};
use std::io::{self, ErrorKind};

/// Sixteen bytes in memory.
#[derive(Drop)]
pub struct FakeFile {
    bytes: [u8; 16],
    len: usize,
    /// The most bytes that one call takes.
    pub most: usize,
    /// Every so many calls one is interrupted; none at 0.
    pub interrupted_every: usize,
    /// The number of the read or write, from 1, that fails; none at 0.
    pub failing_call: usize,
    pub fails_to_sync: bool,
    /// How many reads and writes there were.
    pub calls: usize,
    pub syncs: u32,
}

// Copies so many bytes from a place to another one, or as many as there are on both sides.
fn copy(into: &mut [u8], to: usize, from: &[u8], at: usize, count: usize) {
    for (byte, new) in into
        .iter_mut()
        .skip(to)
        .zip(from.iter().skip(at).take(count))
    {
        *byte = *new;
    }
}

impl FakeFile {
    /// A file that does all that it is asked at once, but for its syncs if they are to fail.
    pub fn new(fails_to_sync: bool) -> FakeFile {
        FakeFile {
            bytes: [0; 16],
            len: 16,
            most: 16,
            interrupted_every: 0,
            failing_call: 0,
            fails_to_sync,
            calls: 0,
            syncs: 0,
        }
    }

    // Counts a read or a write of so many bytes, and says how many of them it takes; it may fail.
    fn begin(&mut self, len: usize) -> io::Result<usize>
        ensures same { self.new.len ≡ self.old.len }
        ensures taken { IfOk result (λ n. n ≤ len) }
    {
        self.calls = self.calls.saturating_add(1);
        if self.calls == self.failing_call {
            return Err(ErrorKind::StorageFull.into());
        }
        match self.calls.checked_rem(self.interrupted_every) {
            Some(0) => Err(ErrorKind::Interrupted.into()),
            _ if self.most < len => Ok(self.most),
            _ => Ok(len),
        }
    }
}

impl PositionalFile for FakeFile {
    ghost is_modelled = { false };

    ghost life = { λ f. unknown f.len };

    ghost read_is_image = { λ f is. no_image is };

    ghost now_counts = { λ f t c le now. now };

    fn len(&self) -> usize {
        self.len
    }

    fn lock(&mut self) -> Result<(), FileFault> {
        Ok(())
    }

    fn lengthen(&mut self, len: usize) -> io::Result<()> {
        self.len = len;
        Ok(())
    }

    fn read_some(&mut self, at: usize, into: &mut [u8]) -> io::Result<usize> {
        let n = self.begin(into.len())?;
        copy(into, 0, &self.bytes, at, n);
        Ok(n)
    }

    fn write_some(&mut self, at: usize, bytes: &[u8]) -> io::Result<usize> {
        let n = self.begin(bytes.len())?;
        copy(&mut self.bytes, at, bytes, 0, n);
        Ok(n)
    }

    fn sync(&mut self) -> io::Result<()> {
        self.syncs = self.syncs.saturating_add(1);
        if self.fails_to_sync {
            return Err(ErrorKind::Other.into());
        }
        Ok(())
    }

    fn flusher(&self) -> Flusher {
        Flusher::nothing()
    }

    fn settle(&mut self, _flushed: Flushed) -> io::Result<()> {
        self.sync()
    }
}

/// A place for one such file, and the step of making it that fails: to create it, to sync it, or to sync its folder.
#[derive(Drop)]
pub struct FakePlace<'a> {
    pub failing: &'a str,
    pub folder_syncs: u32,
    pub removed: u32,
}

impl<'a> FilePlace for FakePlace<'a> {
    type File = FakeFile;

    ghost is_modelled = { false };

    ghost is_kept = { λ _. false };

    fn create(&mut self) -> io::Result<FakeFile> {
        if self.failing == "create" {
            return Err(ErrorKind::AlreadyExists.into());
        }
        Ok(FakeFile::new(self.failing == "sync"))
    }

    fn open(&mut self) -> io::Result<FakeFile> {
        Ok(FakeFile::new(false))
    }

    fn sync_folder(&mut self) -> io::Result<()> {
        self.folder_syncs = self.folder_syncs.saturating_add(1);
        if self.failing == "folder" {
            return Err(ErrorKind::Other.into());
        }
        Ok(())
    }

    fn remove(&mut self) {
        self.removed = self.removed.saturating_add(1);
    }
}
