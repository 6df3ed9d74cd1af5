//! What may be left of a store while units count on its disk before they are made.

use early_disk::EarlyRule;

/// The rule of a disk that a core lies over (`EarlyDisk`): besides what it leaves else, a crash may leave an image that opens to what is durable
/// of a core to which that opens, or to that behind calls that it may make together, all of them.
#[derive(Drop)]
pub struct EarlyUnits {}

impl EarlyRule for EarlyUnits {
    ghost use Rattle.durable_core.specs.Ahead.{OpensEarly};

    ghost allows = { OpensEarly };
}
