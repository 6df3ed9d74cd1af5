//! The claims of units together with what they are found by.

ghost use Rattle.std.specs.Prelude.{◌≡◌, ◌≢◌, ◌-◌, ◌++◌, ℕ, [], ◌∷◌, false, IsSome, OnErr, OnOk, MatchOption, length, take};
ghost use Rattle.std.specs.List.{list_any};
ghost use Rattle.unit_locks.specs.Lists.{list_at};
ghost use Rattle.unit_locks.specs.Claims.{ClashesWith, ClashesWithNone, has};
ghost use Rattle.unit_locks.specs.Index.{Adds, Finds, IsIndex, IsIndexed, Leaves, Stays, blocks, bucket as bucket_of, clashes_there, place_of, table_hash as hash_of_table, use_in};
ghost use Rattle.unit_locks.specs.declared.holder.Holder.{Holder as HolderIs};

use crate::claim::Claim;
use crate::hash::{bucket, scope_hash, table_hash, whole_hash};
use crate::holder::{self, Holder};
use crate::lists;
use crate::place::{self, Place};
use std::alloc::{AllocError, Global};

// Puts the place of a claim that a unit is to have next, and counts it; out of memory, no place and
// no count goes.
fn index_next(
    alloc: Global,
    places: &mut Vec<Vec<Place>>,
    holders: &mut Vec<Vec<Holder>>,
    claim: &Claim,
    place: Place,
) -> Result<(), AllocError>
    ensures ok { OnOk result (Adds places.old.items places.new.items holders.old.items holders.new.items place (use_in place.unit claim.now)) }
    ensures err { OnErr result (Stays places.old.items places.new.items holders.old.items holders.new.items) }
{
    match holder::count(alloc, holders, place.unit, claim) {
        Ok(()) => match place::put(alloc, places, place) {
            Ok(()) => Ok(()),
            Err(fault) => {
                holder::uncount(holders, place.unit, claim);
                Err(fault)
            }
        },
        Err(fault) => Err(fault),
    }
}

// Takes the place of a claim out, and takes it off the counts.
fn forget(places: &mut Vec<Vec<Place>>, holders: &mut Vec<Vec<Holder>>, claim: &Claim, place: Place)
    ensures { Leaves places.old.items places.new.items holders.old.items holders.new.items place (use_in place.unit claim.now) }
{
    place::forget(places, place);
    holder::uncount(holders, place.unit, claim);
}

/// Adds a claim behind those of the unit; out of memory, all claims stay.
pub(crate) fn enter(
    alloc: Global,
    units: &mut Vec<Vec<Claim>>,
    places: &mut Vec<Vec<Place>>,
    holders: &mut Vec<Vec<Holder>>,
    unit: u16,
    claim: Claim,
) -> Result<(), AllocError>
    requires { IsIndex units.old.items places.old.items holders.old.items }
    ensures index { IsIndex units.new.items places.new.items holders.new.items }
    ensures ok { OnOk result (list_at units.new.items unit ≡ list_at units.old.items unit ++ claim ∷ []) }
    ensures err { OnErr result (list_at units.new.items unit ≡ list_at units.old.items unit) }
    ensures others { (other : ℕ) → other ≢ unit → list_at units.new.items other ≡ list_at units.old.items other }
{
    let place = next_place(units.as_slice(), unit, &claim);
    match index_next(alloc, places, holders, &claim, place) {
        Err(fault) => Err(fault),
        Ok(()) => match lists::push(alloc, units, unit as usize, claim) {
            Ok(()) => Ok(()),
            Err(claim) => {
                forget(places, holders, &claim, place);
                Err(AllocError)
            }
        },
    }
}

// The place behind the claims of a unit, for this claim.
fn next_place(units: &[Vec<Claim>], unit: u16, claim: &Claim) -> Place
    ensures { result ≡ place_of unit (length (list_at units.now unit)) claim.now }
{
    let at = lists::list(units, unit as usize).len();
    let hash = scope_hash(claim);
    Place { at, hash, unit }
}

/// Takes the last claim off those of the unit.
fn leave(
    units: &mut Vec<Vec<Claim>>,
    places: &mut Vec<Vec<Place>>,
    holders: &mut Vec<Vec<Holder>>,
    unit: u16,
)
    requires { IsIndex units.old.items places.old.items holders.old.items }
    ensures index { IsIndex units.new.items places.new.items holders.new.items }
    ensures items { list_at units.new.items unit ≡ take (length (list_at units.old.items unit) - 1) (list_at units.old.items unit) }
    ensures others { (other : ℕ) → other ≢ unit → list_at units.new.items other ≡ list_at units.old.items other }
{
    match lists::pop(units, unit as usize) {
        Some(claim) => {
            let place = next_place(units.as_slice(), unit, &claim);
            forget(places, holders, &claim, place);
        }
        None => {}
    }
}

/// Keeps the first claims of the unit.
pub(crate) fn keep_first(
    units: &mut Vec<Vec<Claim>>,
    places: &mut Vec<Vec<Place>>,
    holders: &mut Vec<Vec<Holder>>,
    unit: u16,
    count: usize,
)
    requires { IsIndex units.old.items places.old.items holders.old.items }
    ensures index { IsIndex units.new.items places.new.items holders.new.items }
    ensures items { list_at units.new.items unit ≡ take count (list_at units.old.items unit) }
    ensures others { (other : ℕ) → other ≢ unit → list_at units.new.items other ≡ list_at units.old.items other }
{
    while lists::list(units.as_slice(), unit as usize).len() > count {
        leave(units, places, holders, unit);
    }
}

// Another unit with a claim of this hash that clashes with this claim of `unit`.
fn other_at(
    units: &[Vec<Claim>],
    places: &[Vec<Place>],
    unit: u16,
    claim: &Claim,
    hash: u32,
) -> Option<u16>
    ensures { MatchOption result (list_any (clashes_there (λ u. list_at units.now u) unit claim.now hash) (list_at places.now (bucket_of hash)) ≡ false) (λ other. ClashesWith (λ u. list_at units.now u) unit claim.now other) }
{
    place::other_unit(lists::list(places, bucket(hash)), units, unit, claim, hash)
}

// Another unit with a claim that clashes with this claim of one key.
fn other_with_key(
    units: &[Vec<Claim>],
    places: &[Vec<Place>],
    unit: u16,
    claim: &Claim,
) -> Option<u16>
    requires indexed { IsIndexed places.now (λ u. list_at units.now u) }
    requires key { IsSome claim.now.key }
    ensures { MatchOption result (ClashesWithNone (λ u. list_at units.now u) unit claim.now) (λ other. ClashesWith (λ u. list_at units.now u) unit claim.now other) }
{
    let hash = scope_hash(claim);
    match other_at(units, places, unit, claim, hash) {
        Some(other) => Some(other),
        None => {
            let whole = whole_hash(table_hash(claim));
            let by_table = other_at(units, places, unit, claim, whole);
            by_table
        }
    }
}

// Another unit with a claim that clashes with this claim of all of a table.
fn other_with_table(holders: &[Vec<Holder>], unit: u16, claim: &Claim) -> Option<u16>
    ensures { MatchOption result (list_any (blocks unit claim.now) (list_at holders.now (bucket_of (hash_of_table claim.now.table))) ≡ false) (λ other. Finds (blocks unit claim.now) (λ (h : HolderIs). h.unit) (list_at holders.now (bucket_of (hash_of_table claim.now.table))) other) }
{
    holder::other_holder(lists::list(holders, bucket(table_hash(claim))), unit, claim)
}

/// Another unit with a claim that clashes with this claim of `unit`.
pub(crate) fn other_claiming(
    units: &[Vec<Claim>],
    places: &[Vec<Place>],
    holders: &[Vec<Holder>],
    unit: u16,
    claim: &Claim,
) -> Option<u16>
    requires { IsIndex units.now places.now holders.now }
    ensures { MatchOption result (ClashesWithNone (λ u. list_at units.now u) unit claim.now) (λ other. ClashesWith (λ u. list_at units.now u) unit claim.now other) }
{
    match claim.key() {
        Some(_) => other_with_key(units, places, unit, claim),
        None => match other_with_table(holders, unit, claim) {
            Some(other) => Some(other),
            None => None,
        },
    }
}

/// Whether the unit has this claim.
pub(crate) fn holds(units: &[Vec<Claim>], places: &[Vec<Place>], unit: u16, claim: &Claim) -> bool
    requires { IsIndexed places.now (λ u. list_at units.now u) }
    ensures { result ≡ has (list_at units.now unit) claim.now }
{
    let hash = scope_hash(claim);
    place::any_holds(lists::list(places, bucket(hash)), units, unit, claim, hash)
}
