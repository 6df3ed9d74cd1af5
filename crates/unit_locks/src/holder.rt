//! How many claims each unit has of each table, in buckets by the table's name.

ghost use Rattle.std.specs.Prelude.{◌≡◌, ◌+◌, ◌-◌, false, OnErr, OnOk, MatchOption, position};
ghost use Rattle.std.specs.List.{list_any};
ghost use Rattle.unit_locks.specs.Lists.{list_at};
ghost use Rattle.unit_locks.specs.declared.holder.Holder.{Holder as HolderIs};
ghost use Rattle.unit_locks.specs.Index.{Finds, Use, blocks, counted, held, is_held, one_if, same_use, use_in};

use crate::access::Access;
use crate::claim::Claim;
use crate::hash::{bucket, table_hash};
use crate::lists;
use std::alloc::{AllocError, Global};

/// How many claims a unit has of a table with this access, at least one.
#[derive(Debug, Drop)]
pub(crate) struct Holder {
    count: usize,
    table: Vec<u8>,
    pub(crate) unit: u16,
    access: Access,
}

impl Holder {
    // Whether this counts the claims of the unit that are of the claim's table and access.
    fn counts(&self, unit: u16, claim: &Claim) -> bool
        ensures { result ≡ is_held (use_in unit claim.now) self.now }
    {
        self.unit == unit
            && self.table.as_slice() == claim.table()
            && self.access == claim.access()
            && self.count > 0
    }

    // Whether another unit's claims are counted here, and one that clashes with this claim of all of
    // a table.
    fn blocks(&self, unit: u16, claim: &Claim) -> bool
        ensures { result ≡ blocks unit claim.now self.now }
    {
        self.unit != unit
            && (claim.access() == Access::Write || self.access == Access::Write)
            && claim.table() == self.table.as_slice()
            && self.count > 0
    }
}

/// A unit other than `unit` that has a claim which clashes with this one of all of a table.
pub(crate) fn other_holder(holders: &[Holder], unit: u16, claim: &Claim) -> Option<u16>
    ensures { MatchOption result (list_any (blocks unit claim.now) holders.now ≡ false) (λ other. Finds (blocks unit claim.now) (λ (h : HolderIs). h.unit) holders.now other) }
{
    match blocking(holders, unit, claim) {
        Some(i) => Some(holders[i].unit),
        None => None,
    }
}

fn blocking(holders: &[Holder], unit: u16, claim: &Claim) -> Option<usize>
    ensures { result ≡ position (blocks unit claim.now) holders.now }
{
    holders.iter().position(|holder| holder.blocks(unit, claim))
}

/// Counts a claim of the unit; out of memory, the counts stay.
pub(crate) fn count(
    alloc: Global,
    holders: &mut Vec<Vec<Holder>>,
    unit: u16,
    claim: &Claim,
) -> Result<(), AllocError>
    ensures ok { OnOk result ((k : Use) → held holders.new.items k ≡ held holders.old.items k + one_if (same_use (use_in unit claim.now) k)) }
    ensures err { OnErr result ((k : Use) → held holders.new.items k ≡ held holders.old.items k) }
{
    let at = bucket(table_hash(claim));
    lists::grow(alloc, holders, at + 1)?;
    match raise(alloc, &mut holders[at], unit, claim) {
        Ok(()) => Ok(()),
        Err(fault) => Err(fault),
    }
}

/// Takes a claim of the unit off the counts.
pub(crate) fn uncount(holders: &mut Vec<Vec<Holder>>, unit: u16, claim: &Claim)
    ensures { (k : Use) → held holders.new.items k ≡ held holders.old.items k - one_if (same_use (use_in unit claim.now) k) }
{
    let at = bucket(table_hash(claim));
    if at < holders.len() {
        lower(&mut holders[at], unit, claim);
    }
}

// Counts a claim of the unit in the bucket of its table.
fn raise(
    alloc: Global,
    holders: &mut Vec<Holder>,
    unit: u16,
    claim: &Claim,
) -> Result<(), AllocError>
    ensures ok { OnOk result ((k : Use) → counted holders.new.items k ≡ counted holders.old.items k + one_if (same_use (use_in unit claim.now) k)) }
    ensures err { OnErr result (holders.new.items ≡ holders.old.items) }
{
    match position_of(holders.as_slice(), unit, claim) {
        Some(i) => {
            let count = holders[i].count;
            if count == usize::MAX {
                return Err(AllocError);
            }
            let holder = &mut holders[i];
            holder.count = count + 1;
        }
        None => {
            let table = Vec::from_slice(alloc, claim.table())?;
            let access = claim.access();
            holders.push(Holder {
                count: 1,
                table,
                unit,
                access,
            })?;
        }
    }
    Ok(())
}

// Takes a claim of the unit off the counts in the bucket of its table.
fn lower(holders: &mut Vec<Holder>, unit: u16, claim: &Claim)
    ensures { (k : Use) → counted holders.new.items k ≡ counted holders.old.items k - one_if (same_use (use_in unit claim.now) k) }
{
    match position_of(holders.as_slice(), unit, claim) {
        Some(i) => {
            let count = holders[i].count;
            if count > 1 {
                let holder = &mut holders[i];
                holder.count = count - 1;
            } else {
                holders.remove(i);
            }
        }
        None => {}
    }
}

fn position_of(holders: &[Holder], unit: u16, claim: &Claim) -> Option<usize>
    ensures { result ≡ position (is_held (use_in unit claim.now)) holders.now }
{
    holders.iter().position(|holder| holder.counts(unit, claim))
}
