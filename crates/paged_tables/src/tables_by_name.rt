//! Tables by their names.

ghost use Rattle.std.specs.Prelude.{◌≡◌, ◌++◌, ◌∷◌, ℕ, List, [], IfOk, IfSome, OnErr, OnOk, Some, length, option_map, true};
ghost use Rattle.row_values.specs.Schema.{is_name};
ghost use Rattle.std.specs.String.{string_bytes};
ghost use Rattle.tables.specs.Change.{action_of};
ghost use Rattle.tables.specs.ChangeView.{change_of};
ghost use Rattle.tables.specs.Tables.{Store, apply, schema_of, table_of};
ghost use Rattle.tables.specs.View.{is_store};
ghost use Rattle.paged_tables.specs.Stored.{AreRowsOf, form_in, opened, table_in};
ghost use Rattle.paged_tables.specs.TablesByName.{AddsPages, ComesLast, Grows, IsReady, IsInOrder, PagesStay, created_of, named, relaid, schema_after, schema_at, store_of, tables_in};

use crate::lending::TablesLeft;
use crate::stored_table::StoredTable;
use crate::tree::{
    add, create, hold_ready, keep_created, put, relay, release, remove, reserve, reserve_key,
};
use row_values::Schema;
use std::alloc::{AllocError, Global};
use std::collections::BTreeMap;
use std::marker::Model;
use table_map::{NotedPages, TablePages};
use tables::{Action, Change};

/// Tables by their names, those that are created and those that are held ready.
#[derive(Drop)]
pub struct TablesByName {
    tables: BTreeMap<Vec<u8>, StoredTable>,
}

impl Model for TablesByName {
    ghost use Rattle.paged_tables.specs.TablesByName.{IsTableMap, Tables, tables_in};

    ghost Value = { Tables };

    ghost view = { λ m. tables_in m.tables.entries };

    ghost invariant = { λ m. IsTableMap m.tables };
}

impl TablesByName {
    /// No tables. Takes no memory.
    pub fn new(alloc: Global) -> TablesByName
        ensures { result ≡ [] }
    {
        TablesByName {
            tables: BTreeMap::new(alloc),
        }
    }

    /// The table of a name, where it is created.
    pub fn created(&self, name: &str) -> Option<&StoredTable>
        ensures found { option_map (λ table. table_in table.now) result ≡ table_of (store_of self.now) name.now }
        ensures here { IfSome result (λ table. named self.now name.now ≡ Some table.now) }
        ensures good { is_store (store_of self.now) ≡ true }
    {
        created_in(&self.tables, name.as_bytes())
    }

    /// How many tables are created.
    pub fn count(&self) -> usize
        ensures count { result ≡ length (store_of self.now) }
        ensures good { is_store (store_of self.now) ≡ true }
    {
        count_in(&self.tables)
    }

    /// The tables that are created, where they lie.
    pub fn lend(&self) -> TablesLeft<'_>
        ensures tables { result ≡ created_of self.now }
        ensures pages { PagesStay self.now result }
        ensures good { is_store (store_of self.now) ≡ true }
    {
        TablesLeft {
            entries: self.tables.iter(),
        }
    }

    /// A table behind the others, with the rows of its pages. The tables that are held ready are given up,
    /// whether or not there is memory.
    pub fn add(
        &mut self,
        alloc: Global,
        name: String,
        schema: Schema,
        pages: NotedPages,
    ) -> Result<(), AllocError>
        requires name { is_name (string_bytes name) ≡ true }
        requires last { ComesLast (string_bytes name) (store_of self.old) }
        requires rows { AreRowsOf schema pages.rows.listed.value }
        ensures added { OnOk result (store_of self.new ≡ store_of self.old ++ (string_bytes name, table_in (opened schema pages.pages pages.rows.listed.value)) ∷ []) }
        ensures kept { OnErr result (store_of self.new ≡ store_of self.old) }
        ensures pages { AddsPages self.old (opened schema pages.pages pages.rows.listed.value) self.new }
    {
        let table = StoredTable::of_pages(alloc, schema, pages)?;
        add(&mut self.tables, name.into_bytes(), table)
    }

    /// All tables that are created have their rows on these pages, and no changes since. Those that are
    /// held ready are given up, and so is all room.
    pub fn relay(&mut self, alloc: Global, pages: Vec<TablePages>)
        ensures laid { self.new ≡ relaid pages.items self.old }
        ensures store { store_of self.new ≡ store_of self.old }
    {
        relay(&mut self.tables, alloc, pages);
    }

    /// Makes room for a change, and gives the form of its key. Whether or not there is memory, the
    /// store stays, and so does all room.
    pub fn reserve(&mut self, alloc: Global, change: &Change) -> Result<Option<Vec<u8>>, AllocError>
        ensures store { store_of self.new ≡ store_of self.old }
        ensures grows { Grows self.old self.new }
        ensures schemas { OnOk result ((q : List ℕ) → schema_at self.new q ≡ schema_after (change_of change.now) self.old q) }
        ensures ready { IfOk result (λ form. (store : Store) → ((q : List ℕ) → schema_of store q ≡ schema_at self.old q) → IsReady (change_of change.now) (form_in form) store self.new) }
    {
        reserve_in(&mut self.tables, alloc, &change.action)
    }

    /// Makes a change that has its room, at the form that its reservation gave.
    pub fn apply(&mut self, alloc: Global, change: Change, form: &Option<Vec<u8>>)
        requires { IsReady (change_of change) (form_in form.now) (store_of self.old) self.old }
        ensures store { store_of self.new ≡ apply (change_of change) (store_of self.old) }
        ensures grows { Grows self.old self.new }
    {
        apply_in(&mut self.tables, alloc, change.action, form);
    }

    /// Gives up the room at a form in the table of a name, where there is no change.
    pub fn release(&mut self, name: &[u8], form: &[u8])
        ensures store { store_of self.new ≡ store_of self.old }
        ensures pages { PagesStay self.old self.new }
    {
        release(&mut self.tables, name, form);
    }

    /// Gives up the tables that are held ready.
    pub fn keep_created(&mut self)
        ensures store { store_of self.new ≡ store_of self.old }
        ensures none { (q : List ℕ) → schema_at self.new q ≡ schema_of (store_of self.new) q }
        ensures pages { PagesStay self.old self.new }
    {
        keep_created(&mut self.tables);
    }
}

// The table of a name, where it is created.
fn created_in<'a>(
    tables: &'a BTreeMap<Vec<u8>, StoredTable>,
    name: &[u8],
) -> Option<&'a StoredTable>
    requires { IsInOrder tables.now }
    ensures found { option_map (λ table. table_in table.now) result ≡ table_of (store_of (tables_in tables.now.entries)) name.now }
    ensures here { IfSome result (λ table. named (tables_in tables.now.entries) name.now ≡ Some table.now) }
{
    match tables.get(name) {
        Some(table) => {
            if table.is_created() {
                Some(table)
            } else {
                None
            }
        }
        None => None,
    }
}

// How many tables are created.
fn count_in(tables: &BTreeMap<Vec<u8>, StoredTable>) -> usize
    ensures { result ≡ length (store_of (tables_in tables.now.entries)) }
{
    let mut count = 0;
    for table in tables.values() {
        if table.is_created() {
            count += 1;
        }
    }
    count
}

// Makes room for what a change does, and gives the form of its key.
fn reserve_in(
    tables: &mut BTreeMap<Vec<u8>, StoredTable>,
    alloc: Global,
    action: &Action,
) -> Result<Option<Vec<u8>>, AllocError>
    requires { IsInOrder tables.old }
    ensures store { store_of (tables_in tables.new.entries) ≡ store_of (tables_in tables.old.entries) }
    ensures grows { Grows (tables_in tables.old.entries) (tables_in tables.new.entries) }
    ensures schemas { OnOk result ((q : List ℕ) → schema_at (tables_in tables.new.entries) q ≡ schema_after (action_of action.now) (tables_in tables.old.entries) q) }
    ensures ready { IfOk result (λ form. (store : Store) → ((q : List ℕ) → schema_of store q ≡ schema_at (tables_in tables.old.entries) q) → IsReady (action_of action.now) (form_in form) store (tables_in tables.new.entries)) }
    ensures ordered { IsInOrder tables.new }
{
    match action {
        Action::CreateTable { table, schema } => {
            hold_ready(tables, alloc, table.as_bytes(), schema)?;
            Ok(None)
        }
        Action::Put { table, row } => reserve(tables, alloc, table.as_bytes(), row.as_slice()),
        Action::Remove { table, key } => {
            reserve_key(tables, alloc, table.as_bytes(), key.as_slice())
        }
    }
}

// Does what a change does, which has its room.
fn apply_in(
    tables: &mut BTreeMap<Vec<u8>, StoredTable>,
    alloc: Global,
    action: Action,
    form: &Option<Vec<u8>>,
)
    requires ordered { IsInOrder tables.old }
    requires ready { IsReady (action_of action) (form_in form.now) (store_of (tables_in tables.old.entries)) (tables_in tables.old.entries) }
    ensures store { store_of (tables_in tables.new.entries) ≡ apply (action_of action) (store_of (tables_in tables.old.entries)) }
    ensures grows { Grows (tables_in tables.old.entries) (tables_in tables.new.entries) }
    ensures ordered { IsInOrder tables.new }
{
    match action {
        Action::CreateTable { table, schema: _ } => create(tables, table.as_bytes()),
        Action::Put { table, row } => put(tables, table.as_bytes(), form, row),
        Action::Remove { table, key: _ } => remove(tables, alloc, table.as_bytes(), form),
    }
}
