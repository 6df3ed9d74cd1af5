//! Units that begin, go on and end in the row of all units.

ghost use Rattle.std.specs.Prelude.{◌≡◌, ◌≤◌, ◌⊎◌, [], true, OnErr, OnOk, length, map};
ghost use Rattle.std.specs.List.{insert};
ghost use Rattle.tables.specs.ChangeView.{change_of};
ghost use Rattle.unit_locks.specs.Claims.{all_added};
ghost use Rattle.core_model.specs.Units.{has_any, set_unit, unit_of, without};
ghost use Rattle.unit_table.specs.Owner.{plain_owner};
ghost use Rattle.unit_table.specs.Table.{AreKept, IsAt, IsGapFor, held};
ghost use Rattle.unit_table.specs.Keeping.{Keeps};

use crate::changes::add;
use crate::claiming::{add_all, claim_all};
use crate::entry::Entry;
use crate::keep_error::KeepError;
use crate::owner::Owner;
use crate::place::free_number;
use row_values::Schema;
use std::alloc::{AllocError, Global};
use std::sync::Arc;
use tables::Change;
use unit_changes::UnitChanges;
use unit_locks::{Claim, Claims, UnitId};

/// The unit that stands there ends.
pub(crate) fn end(
    entries: &mut Vec<Entry>,
    claims: &mut Claims,
    at: usize,
    owner: &Owner,
) -> UnitChanges
    requires kept { AreKept entries.old.items claims.old }
    requires at { IsAt (plain_owner owner.now) entries.old.items at }
    ensures kept { AreKept entries.new.items claims.new }
    ensures units { held claims.new entries.new.items ≡ without (plain_owner owner.now) (held claims.old entries.old.items) }
    ensures changes { result ≡ (unit_of (plain_owner owner.now) (held claims.old entries.old.items)).changes }
{
    let Entry {
        owner: _,
        number,
        changes,
    } = entries.remove(at);
    claims.drop_unit(UnitId(number));
    changes
}

/// The unit that stands there has these claims and changes too.
pub(crate) fn go_on(
    entries: &mut Vec<Entry>,
    claims: &mut Claims,
    at: usize,
    owner: &Owner,
    more: Vec<Claim>,
    alloc: Global,
    schema: Option<&Arc<Schema, Global>>,
    changes: Vec<Change>,
) -> Result<(), KeepError>
    requires kept { AreKept entries.old.items claims.old }
    requires at { IsAt (plain_owner owner.now) entries.old.items at }
    ensures kept { AreKept entries.new.items claims.new }
    ensures units { Keeps result (plain_owner owner.now) more.items (map change_of changes.items) (held claims.old entries.old.items) (held claims.new entries.new.items) }
{
    let entry = &mut entries[at];
    let unit = UnitId(entry.number);
    let count = claims.of_unit(unit).len();
    match claim_all(claims, unit, more) {
        Ok(()) => {}
        Err(fault) => return Err(fault),
    }
    match add(&mut entry.changes, alloc, schema, changes) {
        Ok(()) => Ok(()),
        Err(AllocError) => {
            claims.truncate(unit, count);
            Err(KeepError::NoMemory)
        }
    }
}

/// A unit with these claims and changes begins there.
pub(crate) fn begin(
    entries: &mut Vec<Entry>,
    claims: &mut Claims,
    at: usize,
    owner: &Owner,
    more: Vec<Claim>,
    changes: UnitChanges,
) -> Result<(), KeepError>
    requires kept { AreKept entries.old.items claims.old }
    requires at { IsGapFor (plain_owner owner.now) entries.old.items at }
    requires work { (has_any changes ≡ true) ⊎ (has_any more.items ≡ true) }
    ensures kept { AreKept entries.new.items claims.new }
    ensures units { Keeps result (plain_owner owner.now) more.items changes (held claims.old entries.old.items) (held claims.new entries.new.items) }
{
    let Some(number) = free_number(entries.as_slice()) else {
        return Err(KeepError::NoMemory);
    };
    let unit = UnitId(number);
    match claim_all(claims, unit, more) {
        Ok(()) => {}
        Err(fault) => return Err(fault),
    }
    let entry = Entry {
        owner: *owner,
        number,
        changes,
    };
    match put_in(entries, at, entry) {
        Ok(()) => Ok(()),
        Err(AllocError) => {
            claims.drop_unit(unit);
            Err(KeepError::NoMemory)
        }
    }
}

/// A unit with these claims, however many they are, and these changes begins there.
pub(crate) fn restore(
    entries: &mut Vec<Entry>,
    claims: &mut Claims,
    at: usize,
    owner: &Owner,
    more: Vec<Claim>,
    changes: UnitChanges,
) -> Result<(), AllocError>
    requires kept { AreKept entries.old.items claims.old }
    requires at { IsGapFor (plain_owner owner.now) entries.old.items at }
    requires work { (has_any changes ≡ true) ⊎ (has_any more.items ≡ true) }
    ensures kept { AreKept entries.new.items claims.new }
    ensures ok { OnOk result (held claims.new entries.new.items ≡ set_unit (plain_owner owner.now) (record { changes = changes; claims = all_added [] more.items }) (held claims.old entries.old.items)) }
    ensures err { OnErr result (held claims.new entries.new.items ≡ held claims.old entries.old.items) }
{
    let Some(number) = free_number(entries.as_slice()) else {
        return Err(AllocError);
    };
    let unit = UnitId(number);
    match add_all(claims, unit, more) {
        Ok(()) => {}
        Err(AllocError) => {
            claims.drop_unit(unit);
            return Err(AllocError);
        }
    }
    let entry = Entry {
        owner: *owner,
        number,
        changes,
    };
    match put_in(entries, at, entry) {
        Ok(()) => Ok(()),
        Err(AllocError) => {
            claims.drop_unit(unit);
            Err(AllocError)
        }
    }
}

// One unit more; out of memory, all are as before.
fn put_in(entries: &mut Vec<Entry>, at: usize, entry: Entry) -> Result<(), AllocError>
    requires { at ≤ length entries.old.items }
    ensures ok { OnOk result (entries.new.items ≡ insert entries.old.items at entry) }
    ensures err { OnErr result (entries.new.items ≡ entries.old.items) }
{
    match entries.insert(at, entry) {
        Ok(()) => Ok(()),
        Err(_) => Err(AllocError),
    }
}
