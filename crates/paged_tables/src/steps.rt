//! What a reservation finds out about its changes.

ghost use Rattle.std.specs.Prelude.{◌≡◌, List, ℕ, [], ◌∷◌, ◌++◌, OnOk, map};
ghost use Rattle.tables.specs.Applied.{apply_all};
ghost use Rattle.tables.specs.ChangeView.{change_of};
ghost use Rattle.paged_tables.specs.Stored.{form_in};
ghost use Rattle.paged_tables.specs.TablesByName.{AreReady, PagesStay, store_of};
ghost use Rattle.paged_tables.specs.Steps.{HoldsNone, forms_of};

use crate::tables_by_name::TablesByName;
use std::alloc::{AllocError, Global};
use tables::{Action, Change};

/// The name of a change's table, and the sort form of the key of its row, where that is a row or a key
/// of the table.
#[derive(Drop)]
pub struct Step {
    pub table: Vec<u8>,
    pub form: Option<Vec<u8>>,
}

/// Makes room for all changes, where no table is held ready.
pub(crate) fn reserve_all(
    tables: &mut TablesByName,
    steps: &mut Vec<Step>,
    alloc: Global,
    changes: &[Change],
) -> Result<(), AllocError>
    requires held { HoldsNone tables.old }
    requires steps { steps.old.items ≡ [] }
    ensures tables { store_of tables.new ≡ store_of tables.old }
    ensures pages { PagesStay tables.old tables.new }
    ensures room { OnOk result (AreReady (map change_of changes.now) (forms_of steps.new.items) (store_of tables.new) tables.new) }
{
    for change in changes {
        let form = tables.reserve(alloc, change)?;
        push_step(steps, alloc, change, form)?;
    }
    Ok(())
}

fn name_of(change: &Change) -> &[u8] {
    match &change.action {
        Action::CreateTable { table, schema: _ } => table.as_bytes(),
        Action::Put { table, row: _ } => table.as_bytes(),
        Action::Remove { table, key: _ } => table.as_bytes(),
    }
}

fn push_step(
    steps: &mut Vec<Step>,
    alloc: Global,
    change: &Change,
    form: Option<Vec<u8>>,
) -> Result<(), AllocError>
    ensures { OnOk result (forms_of steps.new.items ≡ forms_of steps.old.items ++ form_in form ∷ []) }
{
    let table = Vec::from_slice(alloc, name_of(change))?;
    steps.push(Step { table, form })?;
    Ok(())
}

/// Makes the changes, which have their room.
pub(crate) fn apply_all(
    tables: &mut TablesByName,
    alloc: Global,
    steps: &[Step],
    changes: Vec<Change>,
)
    requires { AreReady (map change_of changes.items) (forms_of steps.now) (store_of tables.old) tables.old }
    ensures tables { store_of tables.new ≡ apply_all (map change_of changes.items) (store_of tables.old) }
    ensures pages { PagesStay tables.old tables.new }
{
    let mut i = 0;
    for change in changes {
        tables.apply(alloc, change, &steps[i].form);
        i += 1;
    }
}

/// Gives up the room of changes that are not there.
pub(crate) fn release_all(tables: &mut TablesByName, steps: &[Step])
    ensures tables { store_of tables.new ≡ store_of tables.old }
    ensures pages { PagesStay tables.old tables.new }
{
    for step in steps {
        release_one(tables, step);
    }
}

fn release_one(tables: &mut TablesByName, step: &Step)
    ensures tables { store_of tables.new ≡ store_of tables.old }
    ensures pages { PagesStay tables.old tables.new }
{
    if let Some(form) = &step.form {
        tables.release(step.table.as_slice(), form.as_slice());
    }
}
