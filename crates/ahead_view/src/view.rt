//! What a statement sees of tables whose rows are on pages.

ghost use Rattle.std.specs.Prelude.{◌≡◌, true};
ghost use Rattle.ahead_view.specs.Ahead.{may_be_read};
ghost use Rattle.ahead_view.specs.Given.{given_by};
ghost use Rattle.paged_tables.specs.PagedTables.{store_in};

use crate::given::GivenStore;
use crate::reading::{ReadAhead, take_row, take_rows};
use drda_words::GhostValue;
use paged_tables::PagedTables;
use row_values::Schema;
use std::alloc::Global;
use std::marker::Model;
use std::sync::Arc;
use tables::{PlainFault, Rows, TableView};

/// What a statement sees: the schemas and the number of the tables, and of their rows what was read
/// ahead of it, in the place of what the tables have. Whatever else it asks for is answered by want of
/// memory. What was read is given once; asked for again it is not there. No page is read.
#[derive(Drop)]
pub struct AheadView<'a, 'b> {
    tables: &'a PagedTables,
    read: ReadAhead<'b>,
    given: GhostValue<GivenStore>,
}

impl<'a, 'b> Model for AheadView<'a, 'b> {
    ghost use Rattle.ahead_view.specs.Given.{Ahead, IsAhead};
    ghost use Rattle.paged_tables.specs.PagedTables.{store_in};

    ghost Value = { Ahead };

    ghost view = { λ v. record { store = v.given.value; read = v.read } };

    ghost invariant = { λ v. IsAhead (store_in v.tables.now) (record { store = v.given.value; read = v.read }) };
}

impl<'a, 'b> AheadView<'a, 'b> {
    /// The tables, with what was read of them.
    pub fn new(tables: &'a PagedTables, read: ReadAhead<'b>) -> AheadView<'a, 'b>
        requires { may_be_read (store_in tables.now) read ≡ true }
        ensures { result ≡ record { store = given_by (store_in tables.now) read.entry; read = read.entry } }
    {
        // The tables are a store.
        let _count = tables.count();
        let mut given = GhostValue::of(tables);
        given.set(&read);
        AheadView {
            tables,
            read,
            given,
        }
    }
}

impl<'a, 'b> TableView for AheadView<'a, 'b> {
    ghost use Rattle.std.specs.Prelude.{true};
    ghost use Rattle.tables.specs.PlainFault.{is_damage, no_damage};

    type Fault = PlainFault;

    ghost store = { λ v. v.store };

    ghost is_faithful = { true };

    ghost tells_damage = { is_damage };

    fn schema(
        &mut self,
        alloc: Global,
        table: &str,
    ) -> Result<Option<Arc<Schema, Global>>, PlainFault> {
        let tables = self.tables;
        Ok(tables.schema(table)?)
    }

    fn tables(&mut self) -> Result<usize, PlainFault> {
        let tables = self.tables;
        Ok(tables.count())
    }

    fn get(
        &mut self,
        alloc: Global,
        table: &str,
        key: &[u8],
    ) -> Result<Option<Vec<u8>>, PlainFault> {
        Ok(take_row(&mut self.read, table, key)?)
    }

    fn scan(&mut self, alloc: Global, table: &str) -> Result<Rows, PlainFault> {
        Ok(take_rows(&mut self.read, table)?)
    }

    fn is_trusted(&self) -> bool {
        true
    }

    fn damaged(&self) -> PlainFault {
        PlainFault::Damaged
    }

    ghost memory_is_no_damage = { no_damage };
}
