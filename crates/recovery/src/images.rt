//! Laws of the definitions. The functions do nothing: their contracts are the laws.

ghost use Rattle.recovery.specs.Journaled.{AnsweredStays, CallsGoOn, OneCallIsMade, OneGroupIsMade};
ghost use Rattle.recovery.specs.ImageLaws.{FreshStoresOpen, GroupsOpen, GroupsStay, OpensThere, OpensToOne, RecordsOpen, RecordsStay};

use drda_disk::Disk;

/// An image opens to one state at most.
pub fn images_open_to_one_state()
    ensures { OpensToOne }
{
    unit_journal::laws::a_region_has_one_reading();
    store_check::laws::checkpoints_are_known();
    crate::laws::records_lead_one_way();
}

/// An image that opens has its journal where its active half says.
pub fn images_open_there()
    ensures { OpensThere }
{}

/// Where a record is added, images from before it or after it open to the state before it or behind it.
pub fn records_open()
    ensures { RecordsOpen }
{
    crate::laws::groups_open();
}

/// Where a record was added, an image in which it stands opens to the state behind it.
pub fn records_stay()
    ensures { RecordsStay }
{
    crate::laws::groups_stay();
}

/// Where records are added together, images from before them or after them open to the state before them
/// or behind them.
pub fn groups_open()
    ensures { GroupsOpen }
{
    store_check::laws::checkpoints_are_known();
    crate::laws::records_lead_one_way();
}

/// Where records were added together, an image in which they stand opens to the state behind them.
pub fn groups_stay()
    ensures { GroupsStay }
{
    store_check::laws::checkpoints_are_known();
    crate::laws::records_lead_one_way();
}

/// A store that was just made opens without tables and without units in doubt, and its journal has no
/// records.
pub fn fresh_stores_open()
    ensures { FreshStoresOpen }
{
    store_check::laws::checkpoints_are_known();
}

/// Calls one after another leave on the disk, at any moment, the state after the first of the groups of records
/// that they made or began.
pub fn calls_go_on<D: Disk>()
    ensures { CallsGoOn D.life }
{
    crate::laws::records_follow_one_another();
}

/// What one call makes of a core and its disk: it makes one record, or none, or the core had failed.
pub fn calls_make_records<D: Disk>()
    ensures { OneCallIsMade D.life }
{
    crate::laws::groups_open();
}

/// What calls have answered is in each image that a crash leaves from then on, though the device failed
/// later in the same call.
pub fn answered_units_stay<D: Disk>()
    ensures { AnsweredStays D.life }
{
    crate::laws::records_follow_one_another();
}

/// What a call makes of a core and its disk that makes a group of records, all or none, or begins it.
pub fn calls_make_groups<D: Disk>()
    ensures { OneGroupIsMade D.life }
{
    crate::laws::groups_open();
}
