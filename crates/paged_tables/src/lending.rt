//! Lending the tables where they lie.

ghost use Rattle.std.specs.Prelude.{◌≡◌, true};
ghost use Rattle.row_values.specs.Schema.{is_name};

use crate::stored_table::StoredTable;
use row_values::Schema;
use std::collections::btree_map;
use std::iter::Iterator;
use std::marker::Model;
use table_map::TableMap;

/// A table that is lent where it lies: its name, its schema, and where its rows are, on pages and in the
/// changes since.
#[derive(Drop)]
pub struct TableRef<'a> {
    pub name: &'a str,
    pub schema: &'a Schema,
    pub rows: &'a TableMap,
}

/// The tables that are left to lend, in the order of their names.
#[derive(Drop)]
pub struct TablesLeft<'a> {
    pub(crate) entries: btree_map::Iter<'a, Vec<u8>, StoredTable>,
}

impl<'a> Model for TablesLeft<'a> {
    ghost use Rattle.std.specs.Prelude.{◌≡◌, true};
    ghost use Rattle.tables.specs.View.{is_store};
    ghost use Rattle.paged_tables.specs.TablesByName.{Tables, created_of, store_of, tables_in};

    ghost Value = { Tables };

    ghost view = { λ t. created_of (tables_in t.entries) };

    ghost invariant = { λ t. is_store (store_of (tables_in t.entries)) ≡ true };
}

impl<'a> TablesLeft<'a> {
    ghost use Rattle.paged_tables.specs.Lending.{LendsFirst};

    /// The first of the tables that are left, or none where none is left. Takes no memory, and no page is
    /// read.
    pub fn next_table(&mut self) -> Option<TableRef<'a>>
        ensures { LendsFirst self.old result self.new }
    {
        while let Some((name, table)) = self.entries.next() {
            if table.is_created() {
                return Some(TableRef {
                    name: text_of(name),
                    schema: table.schema_ref(),
                    rows: table.map(),
                });
            }
        }
        None
    }
}

// A name as text.
fn text_of(name: &[u8]) -> &str
    requires { is_name name.now ≡ true }
    ensures { result.now ≡ name.now }
{
    match str::from_utf8(name) {
        Ok(name) => name,
        Err(_) => unreachable!(),
    }
}
