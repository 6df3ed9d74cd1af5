//! The head of a store.

ghost use Rattle.std.specs.Prelude.{◌≡◌, ◌+◌, ◌*◌, IfOk, IsTrue, Ok, length};
ghost use Rattle.drda_disk.specs.Disk.{Stays};
ghost use Rattle.half_store.specs.Active.{Store, active_of};
ghost use Rattle.durable_core.specs.Reads.{ArePagesInside, Counts, IsHead, IsPlain, TellsStore};
ghost use Rattle.unit_journal.specs.Adding.{IsPlace};

use crate::errors::OpenError;
use drda_disk::Disk;
use half_store::Active;
use std::alloc::Global;

/// The name of the store that a disk is, and its active half: its pages, and the region of its journal
/// behind them.
pub(crate) fn read_head<D: Disk>(alloc: Global, disk: &mut D) -> Result<Active, OpenError>
    ensures head { IsTrue D.is_modelled → IfOk result (IsHead (D.life disk.old).seen) }
    ensures pages { IfOk result (ArePagesInside (length (D.life disk.old).seen)) }
    ensures journal { IfOk result (λ active. IsPlace (length (D.life disk.old).seen) active.region) }
    ensures opens { (store : Store) → IsTrue D.is_modelled → active_of (D.life disk.old).seen ≡ Ok store → IsPlain result }
    ensures tells { IsTrue D.is_modelled → TellsStore result (D.life disk.old).seen }
    ensures stays { Stays (D.life disk.old) (D.life disk.new) }
    ensures cause { Counts result (D.life disk.old).faults (D.life disk.new).faults }
{
    match half_store::open(alloc, disk) {
        Ok(active) => Ok(active),
        Err(half_store::OpenError::NotAStore) => Err(OpenError::NotAStore),
        Err(half_store::OpenError::Damaged { at }) => Err(OpenError::Damaged { at }),
        Err(half_store::OpenError::DeviceFailed) => Err(OpenError::DeviceFailed),
        Err(half_store::OpenError::NoMemory) => Err(OpenError::NoMemory),
    }
}
