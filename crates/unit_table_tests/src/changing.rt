//! What is done to units.

use crate::fixtures::{changes_of, claims_of, owner_of, schema};
use std::alloc::Global;
use unit_changes::UnitChanges;
use unit_table::{KeepError, Owner, Units};

/// Keeps claims and changes of a unit, which behind `bare` have no schema.
pub fn keep(
    alloc: Global,
    units: &mut Units,
    owner: &Owner,
    rest: &str,
) -> Option<Result<(), KeepError>> {
    let (claims, changes) = rest.split_once(' ').unwrap_or((rest, ""));
    let schema = schema(alloc)?;
    let schema = if changes == "put" {
        Some(&schema)
    } else {
        None
    };
    let (claims, changes) = (claims_of(alloc, claims)?, changes_of(alloc, changes)?);
    Some(units.keep(owner, claims, schema, changes))
}

/// The unit of a branch in doubt, with one change and these claims.
pub fn restore(alloc: Global, units: &mut Units, owner: &Owner, claims: &str) -> Option<()> {
    let Owner::Global(xid) = *owner else {
        return None;
    };
    if units.has_work(owner) {
        return None;
    }
    let mut changes = UnitChanges::new(alloc);
    changes
        .add(alloc, &schema(alloc)?, changes_of(alloc, "put")?)
        .ok()?;
    units.restore(xid, changes, claims_of(alloc, claims)?).ok()
}

/// Whether claims clash with those of other units.
pub fn clashes(alloc: Global, units: &Units, owner: &Owner, claims: &str) -> Option<bool> {
    Some(units.clashes(owner, &claims_of(alloc, claims)?))
}

/// So many units begin and end, one after the other.
pub fn take_turns(alloc: Global, units: &mut Units, count: u64) -> Option<()> {
    for number in 0..count {
        let owner = Owner::Local(number);
        units
            .keep(
                &owner,
                claims_of(alloc, "write:5..6")?,
                None,
                Vec::new(alloc),
            )
            .ok()?;
        let _none = units.end(&owner);
    }
    Some(())
}

/// How many changes the units of these owners have, copied one behind another's.
pub fn count_copies(alloc: Global, units: &Units, owners: &str) -> Option<usize> {
    let mut copies = Vec::new(alloc);
    for word in owners.split_ascii_whitespace() {
        units.copy_changes(&owner_of(word)?, &mut copies).ok()?;
    }
    Some(copies.len())
}
