//! The committed tables, and the units that work over them.

ghost use Rattle.std.specs.Prelude.{◌≡◌, []};

use paged_tables::PagedTables;
use std::alloc::Global;
use unit_table::Units;

/// The committed tables, and the units that work over them. Contracts see both by `base_of`, as the core's step has them.
#[derive(Drop)]
pub struct Base {
    /// The committed tables.
    pub tables: PagedTables,
    /// The units that have work.
    pub units: Units,
}

impl Base {
    /// These committed tables, over which no unit works yet. Takes no memory.
    pub fn new(alloc: Global, tables: PagedTables) -> Base
        ensures tables { result.tables ≡ tables }
        ensures units { result.units ≡ [] }
    {
        Base {
            tables,
            units: Units::new(alloc),
        }
    }
}
