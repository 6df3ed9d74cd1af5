//! Laws of damage, and of units that count early. The functions do nothing: their contracts are the laws.

ghost use Rattle.durable_core.specs.Ahead.{EarlyUnitsAreWhole};
ghost use Rattle.durable_core.specs.Damage.{DamageOpensNot, OneDamage};

use drda_disk::Disk;

/// A damaged image opens to nothing.
pub fn damage_does_not_open()
    ensures { DamageOpensNot }
{
    recovery::laws::images_open_there();
    store_check::laws::checkpoints_are_known();
    unit_journal::laws::a_region_has_one_reading();
    recovery::laws::records_lead_one_way();
}

/// An image is damaged at one offset at most.
pub fn damage_is_at_one_offset()
    ensures { OneDamage }
{
    store_check::laws::checkpoints_are_known();
    store_check::laws::one_first_bad_of_half();
    unit_journal::laws::a_region_has_one_reading();
    recovery::laws::records_lead_one_way();
}

/// Of an `EarlyDisk` by the rule `EarlyUnits`, of which all that is shown opens to one state: each image that the disk inside may leave
/// opens to that, or to what is durable behind calls that may be made together then, all of them, and is but for one byte one that is shown.
pub fn early_units_are_whole<D: Disk>()
    ensures { EarlyUnitsAreWhole D.is_modelled D.life }
{
    recovery::laws::images_open_to_one_state();
}
