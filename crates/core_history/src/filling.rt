//! How full a core is.

ghost use Rattle.std.specs.Prelude.{◌≡◌, length};
ghost use Rattle.rdb_core.specs.InDoubt.{xids_left};
ghost use Rattle.core_history.specs.Fillings.{counted_up, filling_of};

use drda_disk::Disk;
use durable_core::DurableCore;
use rdb_core::InDoubt;

/// How full a core is: the bytes of its journal that are left for records, and how many units are in doubt. A record
/// takes some of the first, but for a decision, which ends one of the second; only a checkpoint gives any back. So
/// where both are the same as behind a checkpoint, nothing was recorded since.
#[derive(Clone, Copy, PartialEq, Eq)]
pub struct Filling {
    pub(crate) room: usize,
    pub(crate) doubts: usize,
}

impl Filling {
    /// How full this core is.
    pub(crate) fn of<D: Disk>(core: &DurableCore<D>) -> Filling
        ensures { result ≡ filling_of core.now }
    {
        Filling {
            room: core.room(),
            doubts: count(core.in_doubt()),
        }
    }
}

// How many they are.
fn count(doubts: InDoubt<'_>) -> usize
    ensures { result ≡ counted_up (length (xids_left doubts.entry)) }
{
    let mut left = doubts;
    for counted in 0..usize::MAX {
        if left.next().is_none() {
            return counted;
        }
    }
    usize::MAX
}
