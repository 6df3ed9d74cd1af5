//! The view of a unit of work.

ghost use Rattle.std.specs.Prelude.{◌≡◌, IfErr, IfOk, IsTrue, OnOk, alloc_error, false, length, option_map, true};
ghost use Rattle.std.specs.Arc.{arc_value};
ghost use Rattle.tables.specs.Tables.{row_of, rows_of, schema_of};
ghost use Rattle.tables.specs.View.{is_store};
ghost use Rattle.tables.specs.Applied.{apply_all};
ghost use Rattle.unit_changes.specs.UnitTable.{Fits};
ghost use Rattle.unit_changes.specs.TableChanges.{table_of};

use crate::same_schema::are_same;
use crate::table_changes::TableChanges;
use crate::unit::UnitChanges;
use row_values::{Schema, is_key};
use std::alloc::{AllocError, Global};
use std::sync::Arc;
use tables::{Rows, TableView};

/// The fault of want of memory, which tells no damage.
pub(crate) fn no_memory<V: TableView>() -> V::Fault
    ensures { V.tells_damage result ≡ false }
{
    V::Fault::from(AllocError)
}

/// The schema of the table of this name behind the unit's changes: the base's, or else that of a
/// table which the unit created. Where the unit changed a table that the base lacks, the answer is
/// want of memory.
pub fn schema_under<V: TableView>(
    base: &mut V,
    changes: &UnitChanges,
    alloc: Global,
    table: &str,
) -> Result<Option<Arc<Schema, Global>>, V::Fault>
    ensures found { IfOk result (λ schema. IsTrue V.is_faithful → option_map arc_value schema ≡ schema_of (apply_all changes.now (V.store base.old)) table.now) }
    ensures good { IsTrue V.is_faithful → is_store (apply_all changes.now (V.store base.old)) ≡ true }
    ensures fault { IfErr result (λ fault. IsTrue V.is_faithful → V.tells_damage fault ≡ false) }
    ensures store { V.store base.new ≡ V.store base.old }
{
    changes.keep_stores();
    if let Some(schema) = base.schema(alloc, table)? {
        return Ok(Some(schema));
    }
    let Some(told) = changes.table(table) else {
        return Ok(None);
    };
    if !told.is_new {
        return Err(no_memory::<V>());
    }
    match Arc::try_clone(&told.schema) {
        Ok(schema) => Ok(Some(schema)),
        Err(AllocError) => Err(no_memory::<V>()),
    }
}

// That the base has the table with the schema that the unit saw, or lacks it and the unit created it.
fn fit<V: TableView>(
    base: &mut V,
    told: &TableChanges,
    alloc: Global,
    table: &str,
) -> Result<(), V::Fault>
    ensures fits { OnOk result (IsTrue V.is_faithful → Fits told.now.is_new (arc_value told.now.schema) (schema_of (V.store base.old) table.now)) }
    ensures good { IsTrue V.is_faithful → is_store (V.store base.old) ≡ true }
    ensures fault { IfErr result (λ fault. IsTrue V.is_faithful → V.tells_damage fault ≡ false) }
    ensures store { V.store base.new ≡ V.store base.old }
{
    let is_fit = match base.schema(alloc, table)? {
        Some(schema) => are_same(&schema, &told.schema),
        None => told.is_new,
    };
    if !is_fit {
        return Err(no_memory::<V>());
    }
    Ok(())
}

/// The row of this key behind the unit's changes: what they say of the key, or else the base's row.
/// Where the base has another schema of a table that the unit changed, the answer is want of memory.
pub fn row_under<V: TableView>(
    base: &mut V,
    changes: &UnitChanges,
    alloc: Global,
    table: &str,
    key: &[u8],
) -> Result<Option<Vec<u8>>, V::Fault>
    ensures found { IfOk result (λ row. IsTrue V.is_faithful → option_map (λ bytes. bytes.items) row ≡ row_of (apply_all changes.now (V.store base.old)) table.now key.now) }
    ensures good { IsTrue V.is_faithful → is_store (apply_all changes.now (V.store base.old)) ≡ true }
    ensures fault { IfErr result (λ fault. IsTrue V.is_faithful → V.tells_damage fault ≡ false) }
    ensures store { V.store base.new ≡ V.store base.old }
{
    changes.keep_stores();
    let below = base.get(alloc, table, key)?;
    let Some(told) = changes.table(table) else {
        return Ok(below);
    };
    fit(base, told, alloc, table)?;
    if !is_key(&told.schema, key) {
        // No row has such a key.
        return match below {
            None => Ok(None),
            Some(_) => Err(no_memory::<V>()),
        };
    }
    match told.row_over(alloc, key, below) {
        Ok(row) => Ok(row),
        Err(AllocError) => Err(no_memory::<V>()),
    }
}

/// All rows of the table behind the unit's changes, in the order of their keys. Where the base has
/// another schema of a table that the unit changed, or bytes that are no row of it, the answer is want
/// of memory.
fn rows_under<V: TableView>(
    base: &mut V,
    changes: &UnitChanges,
    alloc: Global,
    table: &str,
) -> Result<Rows, V::Fault>
    ensures rows { IfOk result (λ rows. IsTrue V.is_faithful → rows ≡ rows_of (apply_all changes.now (V.store base.old)) table.now) }
    ensures good { IsTrue V.is_faithful → is_store (apply_all changes.now (V.store base.old)) ≡ true }
    ensures fault { IfErr result (λ fault. IsTrue V.is_faithful → V.tells_damage fault ≡ false) }
    ensures store { V.store base.new ≡ V.store base.old }
{
    key_map::laws::forms_keep_order();
    key_map::laws::changes_and_rows_in_turn();
    tables::laws::stores_hold_tables();
    changes.keep_stores();
    let below = base.scan(alloc, table)?;
    let Some(told) = changes.table(table) else {
        return Ok(below);
    };
    fit(base, told, alloc, table)?;
    match told.rows_over(alloc, &below) {
        Ok(rows) => Ok(rows),
        Err(AllocError) => Err(no_memory::<V>()),
    }
}

/// How many tables there are behind the unit's changes: the base's, and those that the unit created
/// and the base lacks. Where the base lacks a table that the unit changed and did not create, the
/// answer is want of memory.
pub fn tables_under<V: TableView>(
    base: &mut V,
    changes: &UnitChanges,
    alloc: Global,
) -> Result<usize, V::Fault>
    ensures count { IfOk result (λ n. IsTrue V.is_faithful → n ≡ length (apply_all changes.now (V.store base.old))) }
    ensures good { IsTrue V.is_faithful → is_store (apply_all changes.now (V.store base.old)) ≡ true }
    ensures fault { IfErr result (λ fault. IsTrue V.is_faithful → V.tells_damage fault ≡ false) }
    ensures store { V.store base.new ≡ V.store base.old }
{
    changes.keep_stores();
    let count = base.tables()?;
    let more = changes.lacking(base, alloc)?;
    match count.checked_add(more) {
        Some(count) => Ok(count),
        None => Err(no_memory::<V>()),
    }
}

/// The view of a unit of work: the base's tables with the unit's changes made.
#[derive(Drop)]
pub struct UnitView<'a, V> {
    pub base: &'a mut V,
    pub changes: &'a UnitChanges,
    pub alloc: Global,
}

impl<'a, V: TableView> TableView for UnitView<'a, V> {
    type Fault = V::Fault;

    ghost use Rattle.tables.specs.Applied.{apply_all};

    ghost store = { λ v. apply_all v.changes.now (V.store v.base.now) };

    ghost is_faithful = { V.is_faithful };

    ghost tells_damage = { V.tells_damage };

    fn schema(
        &mut self,
        alloc: Global,
        table: &str,
    ) -> Result<Option<Arc<Schema, Global>>, V::Fault> {
        schema_under(&mut *self.base, self.changes, alloc, table)
    }

    fn tables(&mut self) -> Result<usize, V::Fault> {
        tables_under(&mut *self.base, self.changes, self.alloc)
    }

    fn get(&mut self, alloc: Global, table: &str, key: &[u8]) -> Result<Option<Vec<u8>>, V::Fault> {
        row_under(&mut *self.base, self.changes, alloc, table, key)
    }

    fn scan(&mut self, alloc: Global, table: &str) -> Result<Rows, V::Fault> {
        rows_under(&mut *self.base, self.changes, alloc, table)
    }

    fn is_trusted(&self) -> bool {
        self.base.is_trusted()
    }

    fn damaged(&self) -> V::Fault {
        self.base.damaged()
    }

    ghost memory_is_no_damage = { V.memory_is_no_damage };
}
