//! The units, copied as plain lists.

ghost use Rattle.std.specs.Prelude.{◌≡◌, ◌++◌, IfOk, OnOk, map};
ghost use Rattle.tables.specs.ChangeView.{change_of};
ghost use Rattle.unit_table.specs.Plain.{held_of};
ghost use Rattle.unit_table.specs.Table.{held, held_by};

use crate::entry::Entry;
use crate::owner::Owner;
use std::alloc::{AllocError, Global};
use tables::{Action, Change};
use unit_locks::{Claim, Claims, UnitId};

/// A unit that has work, as plain lists. Contracts see it by `held_of`.
#[derive(Drop)]
pub struct PlainUnit {
    /// Whose it is.
    pub owner: Owner,
    /// What it has changed, in its order.
    pub changes: Vec<Change>,
    /// What it claims, in the order in which it first made the claims.
    pub claims: Vec<Claim>,
}

/// Copies of all units, in their order.
pub(crate) fn copied_units(
    alloc: Global,
    entries: &[Entry],
    claims: &Claims,
) -> Result<Vec<PlainUnit>, AllocError>
    ensures { IfOk result (λ units. map held_of units.items ≡ held claims.now entries.now) }
{
    let mut units = Vec::new(alloc);
    for i in 0..entries.len() {
        units.push(copied_unit(alloc, &entries[i], claims)?)?;
    }
    Ok(units)
}

// A copy of one unit.
fn copied_unit(alloc: Global, entry: &Entry, claims: &Claims) -> Result<PlainUnit, AllocError>
    ensures { IfOk result (λ unit. held_of unit ≡ held_by claims.now entry.now) }
{
    let changes = copied_changes(alloc, entry.changes.as_slice())?;
    let claims = copied_claims(alloc, claims.of_unit(UnitId(entry.number)))?;
    Ok(PlainUnit {
        owner: entry.owner,
        changes,
        claims,
    })
}

fn copied_changes(alloc: Global, changes: &[Change]) -> Result<Vec<Change>, AllocError>
    ensures { IfOk result (λ copies. map change_of copies.items ≡ map change_of changes.now) }
{
    let mut copies = Vec::new(alloc);
    add_copies(alloc, changes, &mut copies)?;
    Ok(copies)
}

/// Adds copies of changes at the end, in their order; out of memory some of them.
pub(crate) fn add_copies(
    alloc: Global,
    changes: &[Change],
    copies: &mut Vec<Change>,
) -> Result<(), AllocError>
    ensures { OnOk result (map change_of copies.new.items ≡ map change_of copies.old.items ++ map change_of changes.now) }
{
    for i in 0..changes.len() {
        copies.push(copied_change(alloc, &changes[i])?)?;
    }
    Ok(())
}

fn copied_change(alloc: Global, change: &Change) -> Result<Change, AllocError>
    ensures { IfOk result (λ copy. change_of copy ≡ change_of change.now) }
{
    match &change.action {
        Action::CreateTable { table, schema } => {
            let table = String::from_str(alloc, table.as_str())?;
            Ok(Change::create(table, schema.copy(alloc)?))
        }
        Action::Put { table, row } => {
            let table = String::from_str(alloc, table.as_str())?;
            Ok(Change::put(table, Vec::from_slice(alloc, row.as_slice())?))
        }
        Action::Remove { table, key } => {
            let table = String::from_str(alloc, table.as_str())?;
            Ok(Change::remove(table, Vec::from_slice(alloc, key.as_slice())?))
        }
    }
}

fn copied_claims(alloc: Global, claims: &[Claim]) -> Result<Vec<Claim>, AllocError>
    ensures { IfOk result (λ copies. copies.items ≡ claims.now) }
{
    let mut copies = Vec::new(alloc);
    for i in 0..claims.len() {
        copies.push(copied_claim(alloc, &claims[i])?)?;
    }
    Ok(copies)
}

fn copied_claim(alloc: Global, claim: &Claim) -> Result<Claim, AllocError>
    ensures { IfOk result (λ copy. copy ≡ claim.now) }
{
    // Asked for, so that it is known that the name and the key are short.
    let _bytes = claim.to_bytes();
    Claim::new(alloc, claim.access(), claim.table(), claim.key())
}
