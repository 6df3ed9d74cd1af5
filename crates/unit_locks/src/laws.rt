//! Laws of claims. The functions do nothing: their contracts are the laws.

ghost use Rattle.unit_locks.specs.Claim.{OneReading};
ghost use Rattle.unit_locks.specs.Claims.{AddsClaims};
ghost use Rattle.unit_locks.specs.Clash.{IsSymmetric, clash};

/// A claim clashes with another exactly where that one clashes with it.
pub fn clash_is_symmetric()
    ensures { IsSymmetric clash }
{}

/// Bytes begin with one claim at most: what follows it is what follows.
pub fn one_reading()
    ensures { OneReading }
{}

/// After claims were added to a list it has those that it had and those that were added, and no
/// others, and none twice.
pub fn adding()
    ensures { AddsClaims }
{}
