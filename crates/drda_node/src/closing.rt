//! Laws of the definitions. The functions do nothing: their contracts are the laws.

ghost use Rattle.drda_node.specs.Closing.{OnlyFailedDevicesClose, OnlyFaultsClose};

/// A command closes its conversation, by AGNPRMRM, only where the device has failed, in this call or before it;
/// what else closes one is a fault of the framing.
pub fn only_failed_devices_close()
    ensures commands { OnlyFailedDevicesClose }
    ensures heard { OnlyFaultsClose }
{
    serializability::laws::answers_belong_to_calls();
}
