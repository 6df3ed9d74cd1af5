//! The changes of a unit, each of which has a place behind those before it.

ghost use Rattle.std.specs.Prelude.{◌≡◌, ◌++◌, ◌∷◌, [], IfOk, OnErr, OnOk, map};
ghost use Rattle.tables.specs.ChangeView.{change_of};
ghost use Rattle.paged_tables.specs.PagedTables.{store_in};
ghost use Rattle.paged_tables.specs.TablesByName.{PagesStay};
ghost use Rattle.core_model.specs.Units.{apply_all};
ghost use Rattle.recovery.specs.Durable.{has_place, have_places};
ghost use Rattle.recovery.specs.Replay.{Judges};

use crate::placed::placed_schema;
use paged_tables::PagedTables;
use row_values::{ReadError, Schema};
use std::alloc::{AllocError, Global};
use std::sync::Arc;
use tables::Change;
use unit_changes::UnitChanges;

/// The changes as those of a unit; damaged where one of them has no place in the store behind those
/// before it.
pub(crate) fn gather(
    store: &PagedTables,
    alloc: Global,
    changes: Vec<Change>,
) -> Result<UnitChanges, ReadError>
    ensures judges { Judges result (have_places (map change_of changes.items) (store_in store.now)) }
    ensures unit { IfOk result (λ unit. unit ≡ map change_of changes.items) }
{
    let mut unit = UnitChanges::new(alloc);
    for change in changes {
        match add_placed(store, &mut unit, alloc, change) {
            Ok(()) => {}
            Err(error) => return Err(error),
        }
    }
    Ok(unit)
}

// Adds a change that has its place behind the others.
fn add_placed(
    store: &PagedTables,
    unit: &mut UnitChanges,
    alloc: Global,
    change: Change,
) -> Result<(), ReadError>
    ensures judges { Judges result (has_place (change_of change) (apply_all unit.old (store_in store.now))) }
    ensures added { OnOk result (unit.new ≡ unit.old ++ change_of change ∷ []) }
{
    let schema = match placed_schema(store, unit, alloc, &change) {
        Ok(schema) => schema,
        Err(error) => return Err(error),
    };
    let mut changes = Vec::new(alloc);
    changes.push(change)?;
    unit.add(alloc, &schema, changes)?;
    Ok(())
}

/// Makes the changes of a unit in the store. Out of memory, the store stays. No page is read.
#[tactic(auto, using(paged_tables::proofs::Pages::and_stay))]
pub(crate) fn make(
    store: &mut PagedTables,
    alloc: Global,
    unit: UnitChanges,
) -> Result<(), AllocError>
    ensures made { OnOk result (store_in store.new ≡ apply_all unit (store_in store.old)) }
    ensures pages { PagesStay store.old.tables store.new.tables }
    ensures kept { OnErr result (store_in store.new ≡ store_in store.old) }
{
    store.reserve(alloc, unit.as_slice())?;
    store.apply_reserved(alloc, unit.into_vec());
    Ok(())
}
