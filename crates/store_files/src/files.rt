//! Where stores are kept.

ghost use Rattle.std.specs.Prelude.{◌≡◌, IfOk, IsTrue, option_map, replicate, string_bytes};
ghost use Rattle.std.specs.Result.{result_ok};
ghost use Rattle.drda_disk.specs.Disk.{Only};
ghost use Rattle.durable_core.specs.Ahead.{LetsOpenEarly};
ghost use Rattle.store_files.specs.Files.{FileCalls, any_files};

use drda_disk::{Disk, FileDisk, FileFault, FilePath, FilePlace, SystemFile};
use durable_core::EarlyUnits;
use early_disk::EarlyDisk;
use std::alloc::Global;
use std::fmt::{Display, Write};
use std::fs::{self, File, Permissions};
use std::io::{self, ErrorKind, Read};
use std::os::unix::fs::PermissionsExt;
use std::rt::Files;

/// The rights of others than a file's owner, in its mode.
const RIGHTS_OF_OTHERS: u32 = 0o077;

/// The mode of a file that is made: its owner reads and writes it, and nobody else.
const PRIVATE: u32 = 0o600;

/// All rights in a mode.
const RIGHTS: u32 = 0o777;

/// The most bytes that a private file's text has.
const LONGEST_TEXT: u64 = 4_096;

/// Files that are stores, by their paths.
///
/// Nothing can be known of which file of the system a path names, so what a call comes to is a member, which
/// says nothing unless an impl says more. What the program does with the disks of its paths is said over it.
pub trait StoreFiles {
    /// A file as a disk.
    type Disk: Disk + Drop;

    /// What a call comes to.
    ghost calls: { FileCalls Self Self.Disk } = { any_files };

    /// Units may count on the disk before they are made. Does nothing.
    fn lets_early()
        ensures { IsTrue Self.Disk.is_modelled → LetsOpenEarly Self.Disk.allows };

    /// Makes a file of so many zeros, which is its owner's alone. Refused where there is one of this path already.
    fn create(&mut self, path: &str, size: usize) -> Result<Self::Disk, FileFault>
        ensures call { calls.creates self.old path.now size (result_ok result) self.new }
        ensures zeros { IfOk result (λ disk. IsTrue Self.Disk.is_modelled → (Self.Disk.life disk).seen ≡ replicate size 0) }
        ensures durable { IfOk result (λ disk. IsTrue Self.Disk.is_modelled → Only (Self.Disk.life disk)) };

    /// The file of this path, with the length that it has.
    fn open(&mut self, path: &str) -> Result<Self::Disk, FileFault>
        ensures call { calls.opens self.old path.now (result_ok result) self.new };

    /// Removes a file that was just made, of which no store became.
    fn discard(&mut self, path: &str)
        ensures call { calls.discards self.old path.now self.new };

    /// The text of the file of this path. Refused where it can't be read, others than its owner have rights
    /// on it, it has more than 4,096 bytes, or they are no UTF-8; memory that is refused is told as such.
    fn read_private(&mut self, alloc: Global, path: &str) -> io::Result<String>
        ensures call { calls.reads self.old path.now (option_map string_bytes (result_ok result)) self.new };

    /// A line for people that says why the last call was refused that was; empty where nothing is known of
    /// it. It stands in front of the line of the fault, and no contract says what is in it.
    fn reason(&self) -> &str;
}

/// A file of the system as a disk, on which units may count before they are made.
pub type SystemDisk = EarlyDisk<FileDisk<SystemFile>, EarlyUnits>;

/// The files of the system.
#[derive(Drop)]
pub struct SystemFiles<'a, R> {
    alloc: Global,
    rt: &'a R,
    reason: String,
}

impl<'a, R: Files<File = File>> SystemFiles<'a, R> {
    /// The files that a program has by this handle.
    pub fn new(alloc: Global, rt: &'a R) -> SystemFiles<'a, R> {
        SystemFiles {
            alloc,
            rt,
            reason: String::new(alloc),
        }
    }

    // Keeps why a call with a path was refused, as far as memory allows.
    fn note<E: Display>(&mut self, path: &str, error: &E) {
        self.reason.clear();
        let _ = writeln!(self.reason, "drdad: {path}: {error}");
    }
}

impl<'a, R: Files<File = File>> StoreFiles for SystemFiles<'a, R> {
    type Disk = SystemDisk;

    fn lets_early() {}

    fn create(&mut self, path: &str, size: usize) -> Result<SystemDisk, FileFault> {
        match make_private(self.alloc, self.rt, path, size) {
            Ok(disk) => Ok(EarlyDisk::new(disk)),
            Err(fault) => {
                self.note(path, &fault);
                Err(fault)
            }
        }
    }

    fn open(&mut self, path: &str) -> Result<SystemDisk, FileFault> {
        match FileDisk::open(&mut FilePath::new(self.alloc, self.rt, path)) {
            Ok(disk) => Ok(EarlyDisk::new(disk)),
            Err(fault) => {
                self.note(path, &fault);
                Err(fault)
            }
        }
    }

    fn discard(&mut self, path: &str) {
        let removed = self.rt.remove_file(path);
        self.reason.clear();
        let _ = match removed {
            Ok(()) => writeln!(
                self.reason,
                "drdad: {path}: the system has no room for it, or failed to write it; no file is left"
            ),
            Err(error) => writeln!(
                self.reason,
                "drdad: {path}: it is no store, and is not removed: {error}"
            ),
        };
    }

    fn read_private(&mut self, alloc: Global, path: &str) -> io::Result<String> {
        match private_text(alloc, self.rt, path) {
            Ok(text) => Ok(text),
            Err(Unread::Io(error)) => {
                self.note(path, &error);
                Err(error)
            }
            Err(Unread::Shared { mode }) => {
                self.reason.clear();
                let _ = writeln!(
                    self.reason,
                    "drdad: {path}: others than its owner have rights on it, its mode is {mode:03o}"
                );
                Err(io::Error::from(ErrorKind::PermissionDenied))
            }
        }
    }

    fn reason(&self) -> &str {
        &self.reason
    }
}

// A file of so many zeros, on which nobody but its owner has rights. None is left where these can't be set.
fn make_private<R: Files<File = File>>(
    alloc: Global,
    rt: &R,
    path: &str,
    size: usize,
) -> Result<FileDisk<SystemFile>, FileFault> {
    let mut place = FilePath::new(alloc, rt, path);
    let disk = FileDisk::create(&mut place, size)?;
    match fs::set_permissions(rt, path, Permissions::from_mode(PRIVATE)) {
        Ok(()) => Ok(disk),
        Err(error) => {
            place.remove();
            Err(FileFault::Io(error))
        }
    }
}

// Why a private text is not read.
#[derive(Drop)]
enum Unread {
    Io(io::Error),
    // Others than its owner have rights on it.
    Shared { mode: u32 },
}

impl From<io::Error> for Unread {
    fn from(error: io::Error) -> Unread {
        Unread::Io(error)
    }
}

// The text of a file on which others than its owner have no rights.
fn private_text<R: Files<File = File>>(
    alloc: Global,
    rt: &R,
    path: &str,
) -> Result<String, Unread> {
    let file = File::open(rt, path)?;
    let mode = file.metadata()?.permissions().mode() & RIGHTS;
    if mode & RIGHTS_OF_OTHERS != 0 {
        return Err(Unread::Shared { mode });
    }
    let mut text = String::new(alloc);
    file.take(LONGEST_TEXT + 1).read_to_string(&mut text)?;
    if text.len() as u64 > LONGEST_TEXT {
        return Err(Unread::Io(io::Error::from(ErrorKind::FileTooLarge)));
    }
    Ok(text)
}
