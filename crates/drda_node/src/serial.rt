//! Laws of the definitions. The functions do nothing: their contracts are the laws.

ghost use Rattle.drda_node.specs.Serial.{HistoriesLead, MachinesAreSerial, SaneOpeningsBegin};

/// What a machine answers is in serial order: the units that were committed have, alone one after another, the
/// answers that it gave and their changes, from an opening that is sane.
pub fn machines_are_serial()
    ensures lead { HistoriesLead }
    ensures openings { SaneOpeningsBegin }
    ensures serial { MachinesAreSerial }
{
    serializability::laws::answers_are_serial();
}
