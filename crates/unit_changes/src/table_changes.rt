//! What a unit has made of one table.

ghost use Rattle.std.specs.Prelude.{◌≡◌, ◌++◌, [], List, ℕ, OnErr, OnOk, IfOk, map, option_map, true};
ghost use Rattle.std.specs.String.{string_bytes};
ghost use Rattle.std.specs.Arc.{arc_value};
ghost use Rattle.std.specs.List.{AllByRecursion, flat_map};
ghost use Rattle.row_values.specs.Key.{is_key};
ghost use Rattle.key_map.specs.SortForm.{sort_form};
ghost use Rattle.key_map.specs.Slots.{HasRoom};
ghost use Rattle.key_map.specs.Merging.{InOrder, Rows as KeyedRows, changed, merged, row_at};
ghost use Rattle.key_map.specs.Overlay.{changes_of, said};
ghost use Rattle.tables.specs.ChangeView.{change_of};
ghost use Rattle.unit_changes.specs.KeyChanges.{HaveRoom, step_of};
ghost use Rattle.unit_changes.specs.UnitTable.{IsKey, SaysKeys, all_changed, said_by};
ghost use Rattle.unit_changes.specs.TableChanges.{Records, table_of};
ghost use Rattle.unit_changes.specs.TableRows.{HaveRowKeys, by_forms, in_turn};
ghost use Rattle.std.specs.Map.{values_of};

use crate::bytes::see_bytes;
use crate::key_change::{KeyChange, key_change, key_changes};
use crate::table_rows::{formed_rows, merged_rows};
use key_map::{Overlay, sort_form};
use row_values::Schema;
use std::alloc::{AllocError, Global};
use std::sync::Arc;
use tables::{Change, Rows};

/// What a unit has made of one table.
#[derive(Debug, Drop)]
pub(crate) struct TableChanges {
    pub name: String,
    /// The schema that the unit saw, or gave to the table.
    pub schema: Arc<Schema, Global>,
    /// Whether the unit created the table.
    pub is_new: bool,
    /// By the sort forms of keys, the rows that it put and the marks of those that it removed.
    pub rows: Overlay,
}

impl TableChanges {
    /// Adds what the changes say of the table's keys. Out of memory, nothing is added.
    pub fn record(&mut self, alloc: Global, changes: &[Change]) -> Result<(), AllocError>
        ensures recorded { OnOk result (Records (map change_of changes.now) (table_of self.old) (table_of self.new)) }
        ensures kept { OnErr result (table_of self.new ≡ table_of self.old) }
    {
        if let [change] = changes {
            return record_one(&mut self.rows, alloc, &self.schema, change);
        }
        let steps = key_changes(alloc, &self.schema, changes)?;
        reserve_all(&mut self.rows, alloc, steps.as_slice())?;
        make_all(&mut self.rows, alloc, steps);
        Ok(())
    }

    /// The row of a key of the table's schema, where `below` is the one that was there before: what is
    /// recorded of the key wins.
    pub fn row_over(
        &self,
        alloc: Global,
        key: &[u8],
        below: Option<Vec<u8>>,
    ) -> Result<Option<Vec<u8>>, AllocError>
        requires { is_key (arc_value self.now.schema) key.now ≡ true }
        ensures key { IsKey (arc_value self.now.schema) key.now }
        ensures row { IfOk result (λ row. (rows : KeyedRows) → InOrder rows → row_at (sort_form (arc_value self.now.schema) key.now) rows ≡ option_map (λ bytes. bytes.items) below
            → option_map (λ bytes. bytes.items) row ≡ row_at (sort_form (arc_value self.now.schema) key.now) (merged rows (changes_of self.now.rows))) }
    {
        see_bytes(key);
        let form = sort_form(alloc, &self.schema, key)?;
        let before = match &below {
            Some(row) => Some(row.as_slice()),
            None => None,
        };
        match self.rows.get(form.as_slice(), before) {
            Some(row) => Ok(Some(Vec::from_slice(alloc, row)?)),
            None => Ok(None),
        }
    }

    /// All rows of the table, where `below` are those that were there before. Where one of these is no
    /// row of the table's schema, the answer is want of memory.
    pub fn rows_over(&self, alloc: Global, below: &Rows) -> Result<Rows, AllocError>
        ensures keys { OnOk result (HaveRowKeys (arc_value self.now.schema) below.now) }
        ensures order { OnOk result (InOrder (changes_of self.now.rows)) }
        ensures rows { IfOk result (λ rows. rows ≡ values_of (in_turn (by_forms (arc_value self.now.schema) below.now) (changes_of self.now.rows))) }
    {
        let formed = formed_rows(alloc, &self.schema, below)?;
        merged_rows(alloc, formed.as_slice(), &self.rows)
    }
}

// Adds what one change says of a key, by one search of the rows. Out of memory, nothing is added.
fn record_one(
    rows: &mut Overlay,
    alloc: Global,
    schema: &Schema,
    change: &Change,
) -> Result<(), AllocError>
    ensures said { OnOk result ((base : KeyedRows) → InOrder base → merged base (changes_of rows.new) ≡ all_changed (merged base (changes_of rows.old)) (said_by schema.now (change_of change.now))) }
    ensures bytes { OnOk result (SaysKeys schema.now (change_of change.now)) }
    ensures kept { OnErr result (changes_of rows.new ≡ changes_of rows.old) }
{
    let Some(KeyChange { form, row }) = key_change(alloc, schema, change)? else {
        return Ok(());
    };
    if row.is_empty() {
        rows.remove(alloc, form)?;
    } else {
        rows.put(form, row)?;
    }
    Ok(())
}

// Makes room for all steps. Whether or not it finds that, nothing has changed.
fn reserve_all(rows: &mut Overlay, alloc: Global, steps: &[KeyChange]) -> Result<(), AllocError>
    ensures same { changes_of rows.new ≡ changes_of rows.old }
    ensures room { OnOk result (HaveRoom rows.new steps.now) }
{
    for i in 0..steps.len() {
        rows.reserve(alloc, steps[i].form.as_slice())?;
    }
    Ok(())
}

// Makes the steps, for which there is room.
fn make_all(rows: &mut Overlay, alloc: Global, steps: Vec<KeyChange>)
    requires { HaveRoom rows.old steps.items }
    ensures { (base : KeyedRows) → InOrder base → merged base (changes_of rows.new) ≡ all_changed (merged base (changes_of rows.old)) (map step_of steps.items) }
{
    for step in steps {
        make(rows, alloc, step);
    }
}

// Makes one step.
fn make(rows: &mut Overlay, alloc: Global, step: KeyChange)
    requires { HasRoom step.form.items rows.old }
    ensures made { (base : KeyedRows) → InOrder base → merged base (changes_of rows.new) ≡ changed (merged base (changes_of rows.old)) step.form.items (said step.row.items) }
    ensures room { (q : List ℕ) → HasRoom q rows.old → HasRoom q rows.new }
{
    let KeyChange { form, row } = step;
    if row.is_empty() {
        rows.remove_reserved(alloc, form.as_slice());
    } else {
        rows.put_reserved(form.as_slice(), row);
    }
}
