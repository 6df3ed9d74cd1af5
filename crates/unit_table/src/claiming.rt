//! The claims of a statement are added to those of its unit together, or none of them.

ghost use Rattle.std.specs.Prelude.{◌≡◌, ◌≢◌, ℕ, OnErr, OnOk, take, length};
ghost use Rattle.unit_locks.specs.Claims.{all_added, claims_of};
ghost use Rattle.unit_table.specs.Keeping.{Adds};

use crate::keep_error::KeepError;
use std::alloc::AllocError;
use unit_locks::{Claim, Claims, UnitId};

/// The most claims that a unit has.
pub(crate) const MAX_CLAIMS: usize = 65_535;

/// Adds claims to those of a unit; on an error the unit has those that it had.
pub(crate) fn claim_all(
    claims: &mut Claims,
    unit: UnitId,
    more: Vec<Claim>,
) -> Result<(), KeepError>
    ensures unit { Adds result more.items (claims_of claims.old unit.0) (claims_of claims.new unit.0) }
    ensures others { (other : ℕ) → other ≢ unit.0 → claims_of claims.new other ≡ claims_of claims.old other }
{
    let count = claims.of_unit(unit).len();
    match add_all(claims, unit, more) {
        Err(AllocError) => {
            claims.truncate(unit, count);
            Err(KeepError::NoMemory)
        }
        Ok(()) if claims.of_unit(unit).len() > MAX_CLAIMS => {
            claims.truncate(unit, count);
            Err(KeepError::TooMany)
        }
        Ok(()) => Ok(()),
    }
}

/// Adds claims to those of a unit; out of memory some of them, behind those that it had.
pub(crate) fn add_all(claims: &mut Claims, unit: UnitId, more: Vec<Claim>) -> Result<(), AllocError>
    ensures ok { OnOk result (claims_of claims.new unit.0 ≡ all_added (claims_of claims.old unit.0) more.items) }
    ensures front { take (length (claims_of claims.old unit.0)) (claims_of claims.new unit.0) ≡ claims_of claims.old unit.0 }
    ensures others { (other : ℕ) → other ≢ unit.0 → claims_of claims.new other ≡ claims_of claims.old other }
{
    for claim in more {
        claims.add(unit, claim)?;
    }
    Ok(())
}
