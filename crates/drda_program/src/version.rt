//! The version of the program.

ghost use Rattle.drda_program.specs.Program.{TellsVersion};

use std::io::Write;
use store_files::{Fault, tell};

/// Tells the version, which a change that clients or operators can see raises, and the logic of the toolchain
/// that proved it, as `.ci/logic` names it.
pub(crate) fn tell_version<W: Write>(out: &mut W) -> Result<(), Fault>
    ensures { TellsVersion (W.contents out.old) result (W.contents out.new) }
{
    tell(
        "drdad 0.10, proved by Rattle's logic dac8208d650f15bf\n",
        out,
    )
}
