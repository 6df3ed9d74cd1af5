//! Tables that are lent.
ghost use Rattle.std.specs.Prelude.{◌+◌, ◌*◌, ◌≤◌, ℕ, IfSome, length};
ghost use Rattle.drda_disk.specs.Disk.{Stays};
ghost use Rattle.paged_tables.specs.TablesByName.{LieInside};

use drda_disk::Disk;
use paged_tables::{PagedTables, TableRef};
use row_pages::{PageFault, Pager};
use std::alloc::Global;
use table_map::SchemaKeys;
use tables::Rows;

/// How many tables are lent.
pub fn count_lent(tables: &PagedTables) -> usize {
    let mut count = 0_usize;
    let mut left = tables.lend();
    while let Some(_table) = left.next_table() {
        count = count.saturating_add(1);
    }
    count
}

// The table of this name, if it is lent.
fn lent<'a>(tables: &'a PagedTables, name: &str) -> Option<TableRef<'a>>
    ensures { (size : ℕ) → LieInside size tables.now.tables → IfSome result (λ table. table.rows.now.places.at + 8192 * length table.rows.now.places.keys ≤ size) }
{
    let mut left = tables.lend();
    while let Some(table) = left.next_table() {
        if table.name.as_bytes() == name.as_bytes() {
            return Some(table);
        }
    }
    None
}

/// All rows of the table of this name; none where it is not lent.
pub fn scan_lent<D: Disk>(
    alloc: Global,
    tables: &PagedTables,
    pager: &mut Pager<D>,
    name: &str,
) -> Result<Rows, PageFault>
    requires { LieInside (length (D.life pager.old).seen) tables.now.tables }
    ensures { Stays (D.life pager.old) (D.life pager.new) }
{
    let mut rows = Rows::new(alloc);
    let Some(table) = lent(tables, name) else {
        return Ok(rows);
    };
    let keys = SchemaKeys {
        schema: table.schema,
    };
    match table.rows.scan_judged(alloc, &keys, pager, None, &mut rows) {
        Ok(_judged) => Ok(rows),
        Err(fault) => Err(fault),
    }
}
