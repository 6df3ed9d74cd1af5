//! Heuristic decisions.

ghost use Rattle.std.specs.Prelude.{◌≡◌};
ghost use Rattle.half_store.specs.declared.header.Layout.TheVariants.{Two};
ghost use Rattle.drda_node.specs.Asking.{IsJournaled};
ghost use Rattle.drda_program.specs.Deciding.{Ends, Migrates, Settles};

use drda_disk::Disk;
use durable_core::{Checkpointed, Decided, DurableCore};
use store_files::Fault;
use xa_calls::Xid;
use xa_manager::Decision;

/// Decides a unit in doubt in the place of its transaction manager. A store of layout 1 is checkpointed first, which
/// makes it one of layout 2: there a prepare holds the room for it.
///
/// Faults: `NotInDoubt`, no unit of this XID waits for its decision; `NoRoom`, that checkpoint has no room, and the store
/// stays as it was; `NoMemory`; `Device`.
pub(crate) fn decide_on<D: Disk>(
    core: &mut DurableCore<D>,
    xid: &Xid,
    decision: Decision,
) -> Result<(), Fault>
    ensures ends { Ends D.is_modelled D.life xid.now decision core.old result core.new }
    ensures journaled { IsJournaled D.is_modelled D.life core.old core.new }
{
    recovery::laws::calls_go_on::<D>();
    if core.is_of_old_layout() {
        migrate(core)?;
        settle(core, xid, decision)
    } else {
        settle(core, xid, decision)
    }
}

// Makes the store one of layout 2.
fn migrate<D: Disk>(core: &mut DurableCore<D>) -> Result<(), Fault>
    ensures migrates { Migrates D.is_modelled D.life core.old result core.new }
    ensures journaled { IsJournaled D.is_modelled D.life core.old core.new }
{
    match core.checkpoint() {
        Checkpointed::Done => Ok(()),
        Checkpointed::Full { need: _, room: _ } => Err(Fault::NoRoom),
        Checkpointed::NoMemory => Err(Fault::NoMemory),
        Checkpointed::DeviceFailed | Checkpointed::Closed => Err(Fault::Device),
    }
}

// Decides a unit of a store of layout 2.
fn settle<D: Disk>(core: &mut DurableCore<D>, xid: &Xid, decision: Decision) -> Result<(), Fault>
    requires { core.old.layout ≡ Two }
    ensures settles { Settles D.life xid.now decision core.old result core.new }
    ensures journaled { IsJournaled D.is_modelled D.life core.old core.new }
{
    match core.decide(xid, decision) {
        Decided::Done => Ok(()),
        Decided::NotInDoubt => Err(Fault::NotInDoubt),
        Decided::NoMemory => Err(Fault::NoMemory),
        Decided::DeviceFailed | Decided::Closed => Err(Fault::Device),
        Decided::OldLayout => unreachable!(),
    }
}
