//! What is told of the store of a path.

ghost use Rattle.told_stores.specs.Telling.{Checks, Lists, TellsRoom};

use crate::doubts::doubt_text;
use crate::rooms::room_text;
use std::alloc::Global;
use std::io::Write;
use store_files::{Fault, StoreFiles, open_file, tell};

/// Lists the units in doubt, a line each.
pub fn list_doubts<F: StoreFiles, W: Write>(
    alloc: Global,
    files: &mut F,
    path: &str,
    out: &mut W,
) -> Result<(), Fault>
    ensures { Lists F.Disk.is_modelled F.Disk.life F.calls path.now files.old (W.contents out.old) result files.new (W.contents out.new) }
{
    recovery::laws::records_lead_to_sound_states();
    store_check::laws::checkpoints_are_known();
    recovery::laws::openings_are_kept();
    let core = open_file(alloc, files, path)?;
    let text = doubt_text(alloc, &core)?;
    tell(&text, out)
}

/// Tells how much a store holds, and how much room it has.
pub fn tell_room<F: StoreFiles, W: Write>(
    alloc: Global,
    files: &mut F,
    path: &str,
    out: &mut W,
) -> Result<(), Fault>
    ensures { TellsRoom F.Disk.is_modelled F.Disk.life F.calls path.now files.old (W.contents out.old) result files.new (W.contents out.new) }
{
    recovery::laws::records_lead_to_sound_states();
    store_check::laws::checkpoints_are_known();
    recovery::laws::openings_are_kept();
    let core = open_file(alloc, files, path)?;
    let gauge = core.gauge();
    let text = room_text(alloc, core, gauge)?;
    tell(&text, out)
}

/// Opens a store, which reads all of it, and tells that it is whole.
pub fn check<F: StoreFiles, W: Write>(
    alloc: Global,
    files: &mut F,
    path: &str,
    out: &mut W,
) -> Result<(), Fault>
    ensures { Checks F.Disk.is_modelled F.Disk.life F.calls path.now files.old (W.contents out.old) result files.new (W.contents out.new) }
{
    let _ = open_file(alloc, files, path)?;
    tell("whole\n", out)
}
