//! The schemas of tables, without their rows.

ghost use Rattle.std.specs.Prelude.{◌≡◌, IfOk, option_map, true};
ghost use Rattle.std.specs.Arc.{arc_value};
ghost use Rattle.tables.specs.Tables.{row_of, rows_of, schema_of};
ghost use Rattle.tables.specs.View.{is_store};
ghost use Rattle.tables.specs.declared.plain_view.PlainFault.TheVariants.{NoMemory};
ghost use Rattle.paged_tables.specs.PagedTables.{store_in};

use paged_tables::PagedTables;
use row_values::Schema;
use std::alloc::{AllocError, Global};
use std::sync::Arc;
use tables::{PlainFault, Rows, TableView};

/// The schemas and the number of the tables, which are all that the places of changes depend on. Whoever
/// asks for rows is answered by want of memory. No page is read.
#[derive(Drop)]
pub(crate) struct SchemaView<'a> {
    pub tables: &'a PagedTables,
}

impl<'a> TableView for SchemaView<'a> {
    ghost use Rattle.std.specs.Prelude.{Bool, false, true};
    ghost use Rattle.tables.specs.PlainFault.{is_damage, no_damage};
    ghost use Rattle.paged_tables.specs.PagedTables.{store_in};

    type Fault = PlainFault;

    ghost store = { λ v. store_in v.tables.now };

    ghost is_faithful = { true };

    ghost tells_damage = { is_damage };

    fn schema(
        &mut self,
        alloc: Global,
        table: &str,
    ) -> Result<Option<Arc<Schema, Global>>, PlainFault> {
        let tables = self.tables;
        Ok(tables.schema(table)?)
    }

    fn tables(&mut self) -> Result<usize, PlainFault> {
        let tables = self.tables;
        Ok(tables.count())
    }

    fn get(
        &mut self,
        alloc: Global,
        table: &str,
        key: &[u8],
    ) -> Result<Option<Vec<u8>>, PlainFault> {
        let tables = self.tables;
        Err(no_rows(tables))
    }

    fn scan(&mut self, alloc: Global, table: &str) -> Result<Rows, PlainFault> {
        let tables = self.tables;
        Err(no_rows(tables))
    }

    fn is_trusted(&self) -> bool {
        true
    }

    fn damaged(&self) -> PlainFault {
        PlainFault::Damaged
    }

    ghost memory_is_no_damage = { no_damage };
}

// The answer to whoever asks for rows.
fn no_rows(tables: &PagedTables) -> PlainFault
    ensures fault { result ≡ NoMemory }
    ensures good { is_store (store_in tables.now) ≡ true }
{
    // Lent, so that it is known that they are a store.
    let _left = tables.lend();
    PlainFault::NoMemory
}
