//! Whether claims clash with those of other units.

ghost use Rattle.std.specs.Prelude.{◌≡◌};
ghost use Rattle.std.specs.List.{list_any};
ghost use Rattle.unit_locks.specs.Clash.{clash};
ghost use Rattle.core_model.specs.Units.{clashes, others};
ghost use Rattle.unit_table.specs.Owner.{plain_owner};
ghost use Rattle.unit_table.specs.Table.{AreKept, IsNumberOf, held};

use crate::entry::Entry;
use crate::owner::Owner;
use crate::place::{NOBODY, place};
use unit_locks::{Claim, Claims, UnitId};

/// Whether a claim of these clashes with one of a unit that is not this owner's.
pub(crate) fn clash_with_others(
    entries: &[Entry],
    claims: &Claims,
    owner: &Owner,
    more: &[Claim],
) -> bool
    requires { AreKept entries.now claims.now }
    ensures { result ≡ clashes more.now (others (plain_owner owner.now) (held claims.now entries.now)) }
{
    let number = number_of(entries, claims, owner);
    more.iter().any(|claim| clashes_with_others(entries, claims, owner, number, claim))
}

// The number of an owner's unit.
fn number_of(entries: &[Entry], claims: &Claims, owner: &Owner) -> u16
    requires { AreKept entries.now claims.now }
    ensures { IsNumberOf (plain_owner owner.now) result entries.now }
{
    match place(entries, owner) {
        Ok(at) => entries[at].number,
        Err(_) => NOBODY,
    }
}

// Whether the claim clashes with one of a unit that is not this owner's, whose number this is.
fn clashes_with_others(
    entries: &[Entry],
    claims: &Claims,
    owner: &Owner,
    number: u16,
    claim: &Claim,
) -> bool
    requires kept { AreKept entries.now claims.now }
    requires number { IsNumberOf (plain_owner owner.now) number entries.now }
    ensures { result ≡ list_any (clash claim.now) (others (plain_owner owner.now) (held claims.now entries.now)) }
{
    match claims.clashes(UnitId(number), claim) {
        Some(_) => true,
        None => false,
    }
}
