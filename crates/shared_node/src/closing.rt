//! A law of the definitions. The function does nothing: its contract is the law.

ghost use Rattle.shared_node.specs.Closing.{OnlyFailedCoresClose};

use crate::origin::Origin;
use drda_disk::Disk;

/// A command of a conversation that is served at a desk closes it, by AGNPRMRM, only where the core that was found under
/// the lock has failed, in this call or before it, or where the pass is a stranger's; what else closes one is a fault of
/// the framing.
pub fn only_failed_cores_close<D: Disk, B: Origin<D>>()
    ensures { OnlyFailedCoresClose D.is_modelled D.life B.is }
{
    serializability::laws::answers_belong_to_calls();
}
