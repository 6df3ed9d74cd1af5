//! What is left of a store whose device fails in a run, after a crash.

ghost use Rattle.std.specs.Prelude.{◌≡◌, IfErr, IfOk, List, true, ℕ};
ghost use Rattle.drda_disk.specs.MemDisk.{life_of};
ghost use Rattle.recovery.specs.Durable.{Durable};
ghost use Rattle.recovery.specs.Opens.{OpensTo};
ghost use Rattle.recovery.specs.Part.{opened};
ghost use Rattle.durable_core.specs.Reads.{IsExcused};
ghost use Rattle.store_service.specs.Running.{IsRefusal, IsSettledStore};
ghost use Rattle.store_service.specs.Surviving.{Survives};

use crate::running::run_store;
use counted_streams::{Reader, Writer};
use drda_disk::{FuseDisk, MemDisk};
use drda_node::{DurableCore, RunEnd, open};
use durable_core::{OpenError, PlainError};
use rdb_core::PlainState;
use std::alloc::Global;

/// Runs over the store of a disk as `run_store` does, with a device that fails after so many calls, takes an
/// image that a crash leaves then, opens it, and tells its state as plain lists. It is the state after all
/// records of what the run committed, prepared and decided, or with them all that was begun in the call in which
/// the device failed; no premise on disks is left. `pick` chooses the image, as for `MemDisk::after_crash`.
///
/// How the run ended comes first; a run that was refused leaves the state as it was. Either is refused for want
/// of memory, a fault of the device, or a name of the store that is none of a database.
pub fn survives(
    alloc: Global,
    disk: MemDisk,
    calls: u64,
    pick: u64,
    user: &str,
    password: &str,
    input: &[u8],
) -> (Result<RunEnd, OpenError>, Result<PlainState, OpenError>)
    ensures ok { (name : List ℕ) (d : Durable) → IsSettledStore true name d (life_of disk) → IfOk result.1 (Survives name d user.now password.now disk calls pick input.now result.0) }
    ensures ran { (name : List ℕ) (d : Durable) → IsSettledStore true name d (life_of disk) → IfErr result.0 (IsRefusal name) }
    ensures err { (name : List ℕ) (d : Durable) → IsSettledStore true name d (life_of disk) → IfErr result.1 (IsRefusal name) }
{
    let mut reader = Reader::new(input);
    let mut writer = Writer::new(Vec::new(alloc));
    let fuse = FuseDisk::new(disk, calls, false);
    let (left, end) = run_store(alloc, fuse, user, password, &mut reader, &mut writer);
    (end, tell(alloc, left.into_inner().after_crash(pick)))
}

// The state that a disk opens to.
fn tell(alloc: Global, disk: MemDisk) -> Result<PlainState, OpenError>
    ensures ok { (name : List ℕ) (d : Durable) → OpensTo name d (life_of disk).seen → IfOk result (λ told. told ≡ opened d) }
    ensures err { (name : List ℕ) (d : Durable) → OpensTo name d (life_of disk).seen → IfErr result IsExcused }
{
    match open(alloc, disk) {
        Ok(core) => {
            let mut core = core;
            plain_of(&mut core)
        }
        Err(refused) => Err(refused.error),
    }
}

// The state of a core, as plain lists.
fn plain_of(core: &mut DurableCore<MemDisk>) -> Result<PlainState, OpenError>
    ensures ok { IfOk result (λ told. told ≡ core.old.state) }
    ensures err { IfErr result IsExcused }
{
    match core.plain() {
        Ok(plain) => Ok(plain),
        Err(PlainError::NoMemory) => Err(OpenError::NoMemory),
        Err(PlainError::DeviceFailed | PlainError::Closed) => Err(OpenError::DeviceFailed),
    }
}
