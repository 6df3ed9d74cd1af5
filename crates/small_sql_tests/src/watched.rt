//! Tables whose reads are counted.

use row_values::Schema;
use std::alloc::Global;
use std::sync::Arc;
use tables::{PlainFault, PlainView, Rows, TableView};

/// Tables in memory, and how often a row and how often all rows were read.
#[derive(Drop)]
pub(crate) struct Watched {
    pub(crate) view: PlainView,
    pub(crate) gets: usize,
    pub(crate) scans: usize,
}

impl Watched {
    /// No tables, and nothing read.
    pub(crate) fn new(alloc: Global) -> Watched {
        Watched {
            view: PlainView::new(alloc),
            gets: 0,
            scans: 0,
        }
    }
}

impl TableView for Watched {
    ghost use Rattle.std.specs.Prelude.{true};
    ghost use Rattle.tables.specs.PlainFault.{is_damage, no_damage};

    type Fault = PlainFault;

    ghost store = { λ w. w.view };

    ghost is_faithful = { true };

    ghost tells_damage = { is_damage };

    fn schema(
        &mut self,
        alloc: Global,
        table: &str,
    ) -> Result<Option<Arc<Schema, Global>>, PlainFault> {
        self.view.schema(alloc, table)
    }

    fn tables(&mut self) -> Result<usize, PlainFault> {
        self.view.tables()
    }

    fn get(
        &mut self,
        alloc: Global,
        table: &str,
        key: &[u8],
    ) -> Result<Option<Vec<u8>>, PlainFault> {
        self.gets = self.gets.saturating_add(1);
        self.view.get(alloc, table, key)
    }

    fn scan(&mut self, alloc: Global, table: &str) -> Result<Rows, PlainFault> {
        self.scans = self.scans.saturating_add(1);
        self.view.scan(alloc, table)
    }

    fn is_trusted(&self) -> bool {
        true
    }

    fn damaged(&self) -> PlainFault {
        PlainFault::Damaged
    }

    ghost memory_is_no_damage = { no_damage };
}
