//! Branches in doubt, restored.

ghost use Rattle.std.specs.Prelude.{◌≡◌, OnOk, []};
ghost use Rattle.recovery.specs.Replay.{doubts_in};
ghost use Rattle.recovery.specs.Sound.{IsSound};
ghost use Rattle.recovery.specs.Part.{opened};
ghost use Rattle.paged_tables.specs.TablesByName.{PagesStay};
ghost use Rattle.rdb_core.specs.State.{pages_of, recorder_of, state_of};

use rdb_core::Core;
use recovery::PreparedUnit;
use std::alloc::AllocError;
use unit_records::Recorder;
use xa_manager::RestoreError;

/// Restores branches in doubt, as they stand and with their units, in a core without any.
pub(crate) fn restore_all<R: Recorder>(
    core: &mut Core<R>,
    units: Vec<PreparedUnit>,
) -> Result<(), AllocError>
    requires alone { state_of core.old ≡ opened (record { store = (state_of core.old).base.store; doubts = [] }) }
    requires sound { IsSound (record { store = (state_of core.old).base.store; doubts = doubts_in units.items }) }
    ensures restored { OnOk result (state_of core.new ≡ opened (record { store = (state_of core.old).base.store; doubts = doubts_in units.items })) }
    ensures recorder { recorder_of core.new ≡ recorder_of core.old }
    ensures pages { PagesStay (pages_of core.old) (pages_of core.new) }
{
    let mut left = units;
    while let Some(unit) = left.pop() {
        match core.restore(unit.xid, unit.outcome, unit.changes, unit.claims) {
            Ok(()) => {}
            Err(RestoreError::NoMemory) => return Err(AllocError),
            Err(RestoreError::Known) => unreachable!(),
            Err(RestoreError::Full) => unreachable!(),
        }
    }
    Ok(())
}
