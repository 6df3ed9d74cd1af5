//! The claims of all units.

ghost use Rattle.std.specs.Prelude.{◌≡◌, ◌≢◌, ℕ, [], OnErr, OnOk, MatchOption, take};
ghost use Rattle.unit_locks.specs.Claims.{ClashesWith, ClashesWithNone, added, claims_of, has};

use crate::claim::Claim;
use crate::holder::Holder;
use crate::place::Place;
use crate::unit_id::UnitId;
use crate::{index, lists};
use std::alloc::{AllocError, Global};
use std::marker::Model;

/// The claims of units. Contracts see each unit's claims as a list, in the order in which the unit
/// first made them. They are found by table and key: what a call costs does not grow with the number
/// of claims that are held.
#[derive(Drop)]
pub struct Claims {
    alloc: Global,
    units: Vec<Vec<Claim>>,
    places: Vec<Vec<Place>>,
    holders: Vec<Vec<Holder>>,
}

impl Model for Claims {
    ghost use Rattle.std.specs.Prelude.{List, map};
    ghost use Rattle.unit_locks.specs.Claim.{Claim as ClaimIs};
    ghost use Rattle.unit_locks.specs.Index.{IsIndex};

    ghost Value = { List (List ClaimIs) };

    ghost view = { λ c. map (λ list. list.items) c.units.items };

    ghost invariant = { λ c. IsIndex c.units.items c.places.items c.holders.items };
}

impl Claims {
    /// No claims. Takes no memory.
    pub fn new(alloc: Global) -> Claims
        ensures { (unit : ℕ) → claims_of result unit ≡ [] }
    {
        Claims {
            alloc,
            units: Vec::new(alloc),
            places: Vec::new(alloc),
            holders: Vec::new(alloc),
        }
    }

    /// Adds a claim to those of a unit, behind the others, where it is not among them. Out of
    /// memory, all claims stay, and the claim is dropped.
    pub fn add(&mut self, unit: UnitId, claim: Claim) -> Result<(), AllocError>
        ensures ok { OnOk result (claims_of self.new unit.0 ≡ added (claims_of self.old unit.0) claim) }
        ensures err { OnErr result (claims_of self.new unit.0 ≡ claims_of self.old unit.0) }
        ensures others { (other : ℕ) → other ≢ unit.0 → claims_of self.new other ≡ claims_of self.old other }
    {
        if self.contains(unit, &claim) {
            return Ok(());
        }
        index::enter(
            self.alloc,
            &mut self.units,
            &mut self.places,
            &mut self.holders,
            unit.0,
            claim,
        )
    }

    /// Another unit that has a claim which clashes with this claim of `unit`; `None` exactly where
    /// no other unit has one. Takes no memory.
    pub fn clashes(&self, unit: UnitId, claim: &Claim) -> Option<UnitId>
        ensures { MatchOption result (ClashesWithNone (claims_of self.now) unit.0 claim.now) (λ other. ClashesWith (claims_of self.now) unit.0 claim.now other.0) }
    {
        match index::other_claiming(
            self.units.as_slice(),
            self.places.as_slice(),
            self.holders.as_slice(),
            unit.0,
            claim,
        ) {
            Some(other) => Some(UnitId(other)),
            None => None,
        }
    }

    /// Whether the unit has this claim. Takes no memory.
    pub fn contains(&self, unit: UnitId, claim: &Claim) -> bool
        ensures { result ≡ has (claims_of self.now unit.0) claim.now }
    {
        index::holds(self.units.as_slice(), self.places.as_slice(), unit.0, claim)
    }

    /// The claims of a unit, in the order in which it first made them. Takes no memory.
    pub fn of_unit(&self, unit: UnitId) -> &[Claim]
        ensures { result.now ≡ claims_of self.now unit.0 }
    {
        lists::list(self.units.as_slice(), usize::from(unit.0))
    }

    /// Keeps the first `count` claims of a unit, in the order in which it first made them, and drops
    /// the others. Takes no memory.
    pub fn truncate(&mut self, unit: UnitId, count: usize)
        ensures kept { claims_of self.new unit.0 ≡ take count (claims_of self.old unit.0) }
        ensures others { (other : ℕ) → other ≢ unit.0 → claims_of self.new other ≡ claims_of self.old other }
    {
        index::keep_first(
            &mut self.units,
            &mut self.places,
            &mut self.holders,
            unit.0,
            count,
        );
    }

    /// Drops all claims of a unit. Takes no memory.
    pub fn drop_unit(&mut self, unit: UnitId)
        ensures gone { claims_of self.new unit.0 ≡ [] }
        ensures others { (other : ℕ) → other ≢ unit.0 → claims_of self.new other ≡ claims_of self.old other }
    {
        self.truncate(unit, 0);
    }
}
