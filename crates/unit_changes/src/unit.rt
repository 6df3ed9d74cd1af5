//! What a unit of work has changed.

ghost use Rattle.std.specs.Prelude.{◌≡◌, ◌≤◌, ◌+◌, ℕ, List, Some, ◌-◌, ◌==◌, ◌++◌, [], IfErr, IfOk, IsTrue, OnErr, OnOk, false, if◌then◌else◌, is_some, length, map, option_map, true, vec_len};
ghost use Rattle.std.specs.String.{string_bytes};
ghost use Rattle.std.specs.Vec.{vec_capacity};
ghost use Rattle.std.specs.List.{flat_map};
ghost use Rattle.tables.specs.Change.{change_bytes};
ghost use Rattle.tables.specs.ChangeView.{change_of};
ghost use Rattle.row_values.specs.Schema.{Schema as SchemaValue};
ghost use Rattle.tables.specs.Tables.{Store, schema_of};
ghost use Rattle.tables.specs.View.{is_store};
ghost use Rattle.tables.specs.Applied.{apply_all};
ghost use Rattle.unit_changes.specs.TableChanges.{table_of};
ghost use Rattle.unit_changes.specs.Index.{AreNew, IsNewIn, IsToldOf, lacking};

use crate::index::{index_changes, place_of};
use crate::table_changes::TableChanges;
use crate::unit_view::no_memory;
use row_values::{Schema, is_name};
use std::alloc::{AllocError, Global};
use std::marker::Model;
use std::sync::Arc;
use tables::{Change, TableView};

/// The most bytes that the changes of a unit have when they are written.
pub const MAX_CHANGED_BYTES: usize = 1_048_576;

/// What a unit of work has changed and not committed: its changes in their order, and for each table
/// that it changed what has become of its keys, so that a view looks a key up and walks no list of
/// changes. Contracts see the changes.
#[derive(Debug, Drop)]
pub struct UnitChanges {
    changes: Vec<Change>,
    left: usize,
    pub(crate) tables: Vec<TableChanges>,
}

impl Model for UnitChanges {
    ghost use Rattle.std.specs.Prelude.{List, map};
    ghost use Rattle.tables.specs.Change.{Change};
    ghost use Rattle.tables.specs.ChangeView.{change_of};

    ghost Value = { List Change };

    ghost view = { λ u. map change_of u.changes.items };

    ghost use Rattle.unit_changes.specs.Unit.{IsUnit};

    ghost invariant = { IsUnit };
}

impl UnitChanges {
    /// No changes. Takes no memory.
    pub fn new(alloc: Global) -> UnitChanges
        ensures { result ≡ [] }
    {
        UnitChanges {
            changes: Vec::new(alloc),
            left: MAX_CHANGED_BYTES,
            tables: Vec::new(alloc),
        }
    }

    /// Whether there is no change.
    pub fn is_empty(&self) -> bool
        ensures { result ≡ (length self.now == 0) }
    {
        self.changes.is_empty()
    }

    /// The changes, in their order.
    pub fn as_slice(&self) -> &[Change]
        ensures { map change_of result.now ≡ self.now }
    {
        self.changes.as_slice()
    }

    /// Hands the changes out, in their order. Takes no memory.
    pub fn into_vec(self) -> Vec<Change>
        ensures { map change_of result.items ≡ self }
    {
        let UnitChanges {
            changes,
            left: _,
            tables: _,
        } = self;
        changes
    }

    /// How many bytes of changes may still be added, of 1,048,576 in all.
    pub fn left(&self) -> usize
        ensures { result ≡ 1048576 - length (flat_map change_bytes self.now) }
    {
        self.left
    }

    /// Adds the changes of one statement behind the others; `schema` is that of their table, as the
    /// view of the unit shows it (a table that is created brings its own). Out of memory, nothing is
    /// added. The changes of a statement are all of one table: other lists are refused like want of
    /// memory.
    pub fn add(
        &mut self,
        alloc: Global,
        schema: &Arc<Schema, Global>,
        changes: Vec<Change>,
    ) -> Result<(), AllocError>
        ensures added { OnOk result (self.new ≡ self.old ++ map change_of changes.items) }
        ensures kept { OnErr result (self.new ≡ self.old) }
    {
        self.changes.reserve(changes.len())?;
        let left = left_after(self.left, changes.as_slice());
        index_changes(&mut self.tables, alloc, schema, changes.as_slice())?;
        append_reserved(&mut self.changes, changes);
        self.left = left;
        Ok(())
    }

    /// What is told of the table of a name, if a change is of it.
    pub(crate) fn table(&self, name: &str) -> Option<&TableChanges>
        ensures { IsToldOf (option_map (λ t. table_of t.now) result) name.now self.now }
    {
        match place_of(self.tables.as_slice(), name) {
            Some(i) => Some(&self.tables[i]),
            None => None,
        }
    }

    /// How many of the tables that the unit created the base lacks. Where it lacks one that the unit
    /// changed and did not create, the answer is want of memory.
    pub(crate) fn lacking<V: TableView>(
        &self,
        base: &mut V,
        alloc: Global,
    ) -> Result<usize, V::Fault>
        ensures count { IfOk result (λ n. IsTrue V.is_faithful → is_store (V.store base.old) ≡ true → n + length (V.store base.old) ≡ length (apply_all self.now (V.store base.old))) }
        ensures fault { IfErr result (λ fault. IsTrue V.is_faithful → V.tells_damage fault ≡ false) }
        ensures store { V.store base.new ≡ V.store base.old }
    {
        tables::laws::changes_are_local();
        tables::laws::changes_make_tables();
        tables::laws::stores_are_what_they_show();
        count_lacking(self.tables.as_slice(), base, alloc)
    }

    /// The changes make a store of a store, in which the tables that were there have their schemas.
    pub(crate) fn keep_stores(&self)
        ensures stores { (s : Store) → is_store s ≡ true → is_store (apply_all self.now s) ≡ true }
        ensures schemas { (s : Store) (q : List ℕ) (schema : SchemaValue) → schema_of s q ≡ Some schema → schema_of (apply_all self.now s) q ≡ Some schema }
    {
        let _left = self.left;
        tables::laws::changes_are_local();
    }
}

// How many of the tables the base lacks, all of which are new.
fn count_lacking<V: TableView>(
    tables: &[TableChanges],
    base: &mut V,
    alloc: Global,
) -> Result<usize, V::Fault>
    ensures count { IfOk result (λ n. IsTrue V.is_faithful → n ≡ lacking (map table_of tables.now) (V.store base.old)) }
    ensures new { OnOk result (IsTrue V.is_faithful → AreNew (map table_of tables.now) (V.store base.old)) }
    ensures fault { IfErr result (λ fault. IsTrue V.is_faithful → V.tells_damage fault ≡ false) }
    ensures store { V.store base.new ≡ V.store base.old }
{
    let mut count: usize = 0;
    for i in 0..tables.len() {
        count += lacks(&tables[i], base, alloc)?;
    }
    Ok(count)
}

// One where the base lacks the table, which is new then, else 0.
fn lacks<V: TableView>(table: &TableChanges, base: &mut V, alloc: Global) -> Result<usize, V::Fault>
    ensures count { IfOk result (λ n. IsTrue V.is_faithful → n ≡ (if is_some (schema_of (V.store base.old) (string_bytes table.now.name)) then 0 else 1)) }
    ensures one { IfOk result (λ n. n ≤ 1) }
    ensures new { OnOk result (IsTrue V.is_faithful → IsNewIn (V.store base.old) (table_of table.now)) }
    ensures fault { IfErr result (λ fault. IsTrue V.is_faithful → V.tells_damage fault ≡ false) }
    ensures store { V.store base.new ≡ V.store base.old }
{
    let _columns = table.schema.columns();
    if base.schema(alloc, table.name.as_str())?.is_some() {
        return Ok(0);
    }
    if !table.is_new || !is_name(table.name.as_bytes()) {
        return Err(no_memory::<V>());
    }
    Ok(1)
}

// How many bytes are left behind the changes.
fn left_after(left: usize, changes: &[Change]) -> usize
    ensures { result ≡ left - length (flat_map change_bytes (map change_of changes.now)) }
{
    let mut left = left;
    let mut rest = changes;
    while let [change, more @ ..] = rest {
        left = left.saturating_sub(change.length());
        rest = more;
    }
    left
}

// Appends what there is room for.
fn append_reserved(changes: &mut Vec<Change>, more: Vec<Change>)
    requires { vec_len changes.old + vec_len more ≤ vec_capacity changes.old }
    ensures { changes.new.items ≡ changes.old.items ++ more.items }
{
    let mut more = more;
    let _ = changes.append(&mut more);
}
