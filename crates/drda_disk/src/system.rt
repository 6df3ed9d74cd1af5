//! The system's files. No contract says what these calls do, so this file is read by people: each
//! body makes the one call of the system that its name says, on the range that it was given.
ghost use Rattle.std.specs.Prelude.{false, true};
ghost use Rattle.drda_disk.specs.File.{unknown, no_image};

use crate::{FileFault, FilePlace, Flushed, Flusher, PositionalFile};
use std::alloc::Global;
use std::fs::{File, Metadata, OpenOptions, TryLockError};
use std::os::unix::fs::{FileExt, MetadataExt};
use std::path::Path;
use std::rt::Files;
use std::sync::Arc;
use std::{fs, io};

/// An open file of the system, and another opening of it, through which it is flushed while it is read; how many writes
/// have begun.
#[derive(Drop)]
pub struct SystemFile {
    file: File,
    flushed: Option<Arc<File>>,
    writes: u64,
    len: usize,
}

impl PositionalFile for SystemFile {
    ghost is_modelled = { false };

    ghost life = { λ f. unknown f.len };

    ghost read_is_image = { λ f is. no_image is };

    ghost now_counts = { λ f t c le now. now };

    fn len(&self) -> usize {
        self.len
    }

    fn lock(&mut self) -> Result<(), FileFault> {
        match self.file.try_lock() {
            Ok(()) => Ok(()),
            Err(TryLockError::WouldBlock) => Err(FileFault::InUse),
            Err(TryLockError::Error(error)) => match error.kind() {
                io::ErrorKind::Unsupported => Ok(()),
                _ => Err(FileFault::Io(error)),
            },
        }
    }

    fn lengthen(&mut self, len: usize) -> io::Result<()> {
        self.writes = self.writes.wrapping_add(1);
        self.file.set_len(len as u64)?;
        self.len = len;
        Ok(())
    }

    fn read_some(&mut self, at: usize, into: &mut [u8]) -> io::Result<usize> {
        self.file.read_at(into, at as u64)
    }

    fn write_some(&mut self, at: usize, bytes: &[u8]) -> io::Result<usize> {
        self.writes = self.writes.wrapping_add(1);
        self.file.write_at(bytes, at as u64)
    }

    /// fdatasync, which syncs a new length too.
    fn sync(&mut self) -> io::Result<()> {
        self.file.sync_data()
    }

    fn flusher(&self) -> Flusher {
        let Some(file) = &self.flushed else {
            return Flusher::nothing();
        };
        match file.clone() {
            Ok(file) => Flusher::of(file, self.writes),
            Err(_) => Flusher::nothing(),
        }
    }

    fn settle(&mut self, flushed: Flushed) -> io::Result<()> {
        if let Some(kind) = flushed.fault {
            return Err(io::Error::from(kind));
        }
        if flushed.writes == Some(self.writes) {
            return Ok(());
        }
        self.file.sync_data()
    }
}

// Another opening of the file that was opened at a path, where it and memory for it can be had. It is one of its own, and
// no copy of the first one's descriptor, since a fault of the device is told to each opening once. None where another file
// stands there by now.
fn open_again<R: Files<File = File>>(
    alloc: Global,
    rt: &R,
    path: &str,
    first: &File,
) -> Option<Arc<File>> {
    let file = OpenOptions::new().write(true).open(rt, path).ok()?;
    if !are_same(&first.metadata().ok()?, &file.metadata().ok()?) {
        return None;
    }
    Arc::new(alloc, file).ok()
}

// Whether both are of one file: by its device and its number there.
fn are_same(one: &Metadata, other: &Metadata) -> bool {
    one.dev() == other.dev() && one.ino() == other.ino()
}

/// A path of the system.
#[derive(Drop)]
pub struct FilePath<'a, R> {
    alloc: Global,
    rt: &'a R,
    path: &'a str,
}

impl<'a, R: Files<File = File>> FilePath<'a, R> {
    /// A path, with the memory that its file's second opening asks for.
    pub fn new(alloc: Global, rt: &'a R, path: &'a str) -> FilePath<'a, R> {
        FilePath { alloc, rt, path }
    }
}

impl<'a, R: Files<File = File>> FilePlace for FilePath<'a, R> {
    type File = SystemFile;

    ghost is_modelled = { false };

    ghost is_kept = { λ _. false };

    fn create(&mut self) -> io::Result<SystemFile> {
        let file = File::create_new(self.rt, self.path)?;
        let flushed = open_again(self.alloc, self.rt, self.path, &file);
        Ok(SystemFile {
            file,
            flushed,
            writes: 0,
            len: 0,
        })
    }

    fn open(&mut self) -> io::Result<SystemFile> {
        let file = OpenOptions::new()
            .read(true)
            .write(true)
            .open(self.rt, self.path)?;
        let len = file.metadata()?.len() as usize;
        let flushed = open_again(self.alloc, self.rt, self.path, &file);
        Ok(SystemFile {
            file,
            flushed,
            writes: 0,
            len,
        })
    }

    fn sync_folder(&mut self) -> io::Result<()> {
        let folder = match Path::new(self.path).parent() {
            Some(folder) if !folder.as_str().is_empty() => folder.as_str(),
            _ => ".",
        };
        File::open(self.rt, folder)?.sync_all()
    }

    fn remove(&mut self) {
        let _ = fs::remove_file(self.rt, self.path);
    }
}
