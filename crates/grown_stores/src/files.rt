//! Moving the store of a path into a new file.

ghost use Rattle.std.specs.Prelude.{IfErr, OnOk};
ghost use Rattle.grown_stores.specs.Growing.{GrowsFile, IsGrownFile, IsNotGrown};

use crate::growing::{fits, grow};
use drda_disk::Disk;
use std::alloc::Global;
use std::io::Write;
use store_files::{Fault, StoreFiles, open_file, tell};

/// Moves the store of a path, which is not served, into a new file of so many bytes, and says so: its name, its tables and its units in
/// doubt, with their outcomes and their claims. The old file is not written. A crash on the way leaves no store in the new file, or all of
/// it, whatever is answered.
///
/// Faults: those of opening the store; `NoRoom`, the size is no store's, or one of a smaller one; `Device`, the new file can't be
/// made or written, or is there already; `NoMemory`. Of what was not moved no file is left.
pub fn grow_file<F: StoreFiles, W: Write>(
    alloc: Global,
    files: &mut F,
    path: &str,
    new: &str,
    size: u64,
    out: &mut W,
) -> Result<(), Fault>
    ensures { GrowsFile F.Disk.is_modelled F.Disk.life F.calls path.now new.now size files.old (W.contents out.old) result files.new (W.contents out.new) }
{
    move_file(alloc, files, path, new, size)?;
    tell("grown\n", out)
}

// The same, of which nothing is said.
fn move_file<F: StoreFiles>(
    alloc: Global,
    files: &mut F,
    path: &str,
    new: &str,
    size: u64,
) -> Result<(), Fault>
    ensures grown { OnOk result (IsGrownFile F.Disk.is_modelled F.Disk.life F.calls files.old path.now new.now size files.new) }
    ensures not { IfErr result (λ fault. IsNotGrown F.Disk.is_modelled F.Disk.life F.calls files.old path.now new.now size fault files.new) }
{
    crate::laws::grown_stores_open();
    let core = open_file(alloc, files, path)?;
    let mut old = core.into_disk();
    if !fits(old.size(), size as usize) {
        return Err(Fault::NoRoom);
    }
    let Ok(mut disk) = files.create(new, size as usize) else {
        return Err(Fault::Device);
    };
    match grow(alloc, &mut old, &mut disk) {
        Ok(()) => Ok(()),
        Err(fault) => {
            drop(disk);
            files.discard(new);
            Err(fault)
        }
    }
}
