//! The end of what is written.

ghost use Rattle.std.specs.Prelude.{◌≡◌, IfErr, OnOk};
ghost use Rattle.std.specs.Io.KnownBytes.{Appends, Keeps};

use crate::fault::Fault;
use conversation::write_whole;
use std::io::Write;

/// Sends what was written on its way; what fails is the device.
pub fn flush<W: Write>(out: &mut W) -> Result<(), Fault>
    ensures kept { Keeps (W.contents out.old) (W.contents out.new) }
    ensures cause { IfErr result (λ fault. fault ≡ Fault.Device) }
{
    match out.flush() {
        Ok(()) => Ok(()),
        Err(_) => Err(Fault::Device),
    }
}

/// Writes a text and sends it on its way; what fails is the device.
pub fn tell<W: Write>(text: &str, out: &mut W) -> Result<(), Fault>
    ensures told { OnOk result (Appends (W.contents out.old) (W.contents out.new) text.now) }
    ensures cause { IfErr result (λ fault. fault ≡ Fault.Device) }
{
    match write_whole(out, text.as_bytes()) {
        Ok(()) => flush(out),
        Err(_) => Err(Fault::Device),
    }
}
