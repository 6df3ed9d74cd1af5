//! The places of claims, in buckets by what is claimed.

ghost use Rattle.std.specs.Prelude.{◌≡◌, ◌<◌, true, false, OnOk, Some, MatchOption, position};
ghost use Rattle.std.specs.List.{list_any};
ghost use Rattle.unit_locks.specs.Claim.{Claim as ClaimIs};
ghost use Rattle.unit_locks.specs.Lists.{list_at};
ghost use Rattle.unit_locks.specs.declared.place.Place.{Place as PlaceIs};
ghost use Rattle.unit_locks.specs.Index.{Finds, claim_hash, clashes_there, is_in, is_place, is_there, placed};

use crate::claim::Claim;
use crate::hash::bucket;
use crate::lists;
use std::alloc::{AllocError, Global};

/// Where a claim stands: its number in the list of its unit.
#[derive(Clone, Copy, Debug)]
pub(crate) struct Place {
    /// The number in the unit's list.
    pub(crate) at: usize,
    /// The hash of what is claimed.
    pub(crate) hash: u32,
    /// The unit.
    pub(crate) unit: u16,
}

impl Place {
    // Whether two places are the same.
    fn is(&self, other: &Place) -> bool
        ensures { result ≡ is_place self.now other.now }
    {
        self.hash == other.hash && self.unit == other.unit && self.at == other.at
    }

    // Whether the claim there is another unit's, of this hash, and clashes with this one.
    fn clashes(&self, units: &[Vec<Claim>], unit: u16, claim: &Claim, hash: u32) -> bool
        ensures { result ≡ clashes_there (λ u. list_at units.now u) unit claim.now hash self.now }
    {
        if self.hash != hash || self.unit == unit {
            return false;
        }
        match lists::list(units, usize::from(self.unit)).get(self.at) {
            Some(other) => claim.clashes_with(other),
            None => false,
        }
    }

    // Whether the claim there is this one of this unit.
    fn holds(&self, units: &[Vec<Claim>], unit: u16, claim: &Claim, hash: u32) -> bool
        ensures { result ≡ is_there (λ u. list_at units.now u) unit claim.now hash self.now }
    {
        if self.hash != hash || self.unit != unit {
            return false;
        }
        match lists::list(units, usize::from(self.unit)).get(self.at) {
            Some(other) => claim.is_same(other),
            None => false,
        }
    }
}

/// A unit other than `unit` that has a claim which clashes with this one, at one of the places.
#[tactic(auto, using(crate::proofs::ListRows::found_item))]
pub(crate) fn other_unit(
    places: &[Place],
    units: &[Vec<Claim>],
    unit: u16,
    claim: &Claim,
    hash: u32,
) -> Option<u16>
    ensures { MatchOption result (list_any (clashes_there (λ u. list_at units.now u) unit claim.now hash) places.now ≡ false) (λ other. Finds (clashes_there (λ u. list_at units.now u) unit claim.now hash) (λ (p : PlaceIs). p.unit) places.now other) }
{
    for place in places {
        if place.clashes(units, unit, claim, hash) {
            return Some(place.unit);
        }
    }
    None
}

/// Whether the claim stands at one of the places.
pub(crate) fn any_holds(
    places: &[Place],
    units: &[Vec<Claim>],
    unit: u16,
    claim: &Claim,
    hash: u32,
) -> bool
    ensures { result ≡ list_any (is_there (λ u. list_at units.now u) unit claim.now hash) places.now }
{
    places
        .iter()
        .any(|place| place.holds(units, unit, claim, hash))
}

/// Adds a place to its bucket; out of memory, the buckets stay.
pub(crate) fn put(
    alloc: Global,
    places: &mut Vec<Vec<Place>>,
    place: Place,
) -> Result<(), AllocError>
    ensures there { OnOk result (placed places.new.items place ≡ true) }
    ensures kept { (q : PlaceIs) → placed places.old.items q ≡ true → placed places.new.items q ≡ true }
{
    match lists::push(alloc, places, bucket(place.hash), place) {
        Ok(()) => Ok(()),
        Err(_) => Err(AllocError),
    }
}

/// Takes a place out of its bucket.
pub(crate) fn forget(places: &mut Vec<Vec<Place>>, place: Place)
    ensures { (q : PlaceIs) → is_place q place ≡ false → placed places.old.items q ≡ true → placed places.new.items q ≡ true }
{
    let at = bucket(place.hash);
    if let Some(i) = position_of(lists::list(places.as_slice(), at), &place) {
        lists::remove(places, at, i);
    }
}

fn position_of(places: &[Place], place: &Place) -> Option<usize>
    ensures { result ≡ position (is_place place.now) places.now }
{
    places.iter().position(|other| place.is(other))
}
