//! The tables that a unit has changed.

ghost use Rattle.std.specs.Prelude.{◌≡◌, ◌<◌, ◌++◌, IfOk, IfSome, List, OnErr, OnOk, length, map, position, true};
ghost use Rattle.std.specs.Arc.{arc_value};
ghost use Rattle.std.specs.List.{list_all};
ghost use Rattle.tables.specs.Change.{Change as ChangeValue, is_change};
ghost use Rattle.tables.specs.ChangeView.{change_of};
ghost use Rattle.unit_changes.specs.UnitTable.{name_of};
ghost use Rattle.unit_changes.specs.TableChanges.{table_of};
ghost use Rattle.unit_changes.specs.Index.{AreOf, IsIndex, fresh, is_named};

use crate::table_changes::TableChanges;
use key_map::Overlay;
use row_values::Schema;
use std::alloc::{AllocError, Global};
use std::sync::Arc;
use tables::{Action, Change};

/// Records the changes, which are all of one table. Out of memory, nothing is recorded.
pub(crate) fn index_changes(
    tables: &mut Vec<TableChanges>,
    alloc: Global,
    schema: &Arc<Schema, Global>,
    changes: &[Change],
) -> Result<(), AllocError>
    ensures recorded { OnOk result ((before : List ChangeValue) → list_all is_change before ≡ true → IsIndex before (map table_of tables.old.items) → IsIndex (before ++ map change_of changes.now) (map table_of tables.new.items)) }
    ensures good { OnOk result (list_all is_change (map change_of changes.now) ≡ true) }
    ensures kept { OnErr result (map table_of tables.new.items ≡ map table_of tables.old.items) }
{
    tables::laws::changes_are_local();
    tables::laws::changes_make_tables();
    key_map::laws::changes_win();
    key_map::laws::forms_keep_order();
    row_values::laws::keys_are_ordered();
    let [first, ..] = changes else {
        return Ok(());
    };
    let name = table_name(first);
    if !are_of(name, changes) {
        return Err(AllocError);
    }
    match place_of(tables.as_slice(), name) {
        Some(i) => tables[i].record(alloc, changes),
        None => {
            let mut table = new_table(alloc, schema, first)?;
            table.record(alloc, changes)?;
            tables.push(table)?;
            Ok(())
        }
    }
}

// The name of the table that the change is of.
fn table_name(change: &Change) -> &str
    ensures { result.now ≡ name_of (change_of change.now) }
{
    match &change.action {
        Action::CreateTable { table, .. } => table.as_str(),
        Action::Put { table, .. } => table.as_str(),
        Action::Remove { table, .. } => table.as_str(),
    }
}

// Whether the changes are all of this table.
fn are_of(name: &str, changes: &[Change]) -> bool
    ensures named { result ≡ true → AreOf name.now (map change_of changes.now) }
    ensures good { result ≡ true → list_all is_change (map change_of changes.now) ≡ true }
{
    for i in 0..changes.len() {
        if name.as_bytes() != table_name(&changes[i]).as_bytes() {
            return false;
        }
    }
    true
}

// A table of which nothing is recorded yet.
fn new_table(
    alloc: Global,
    schema: &Arc<Schema, Global>,
    change: &Change,
) -> Result<TableChanges, AllocError>
    ensures { IfOk result (λ table. table_of table ≡ fresh (arc_value schema.now) (change_of change.now)) }
{
    let name = String::from_str(alloc, table_name(change))?;
    let rows = Overlay::new(alloc);
    match &change.action {
        Action::CreateTable { schema, .. } => {
            let schema = Arc::new(alloc, schema.copy(alloc)?)?;
            Ok(TableChanges {
                name,
                schema,
                is_new: true,
                rows,
            })
        }
        _ => {
            let schema = Arc::try_clone(schema)?;
            Ok(TableChanges {
                name,
                schema,
                is_new: false,
                rows,
            })
        }
    }
}

// Where the table of a name stands.
pub(crate) fn place_of(tables: &[TableChanges], name: &str) -> Option<usize>
    ensures place { result ≡ position (is_named name.now) tables.now }
    ensures within { IfSome result (λ i. i < length tables.now) }
{
    tables
        .iter()
        .position(|table| name.as_bytes() == table.name.as_bytes())
}
