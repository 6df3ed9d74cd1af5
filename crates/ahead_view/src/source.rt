//! Who reads rows of tables over pages.

ghost use Rattle.std.specs.Prelude.{◌≡◌, Bool, IfOk, IsTrue, false, true};
ghost use Rattle.table_map.specs.Keyed.{copied};
ghost use Rattle.tables.specs.Tables.{row_of, rows_of, schema_of};
ghost use Rattle.ahead_view.specs.Source.{LeavesReader};
ghost use Rattle.paged_tables.specs.Judged.{may_be_row, may_be_rows};
ghost use Rattle.paged_tables.specs.PagedTables.{store_in};
ghost use Rattle.paged_tables.specs.TablesByName.{Tables};

use paged_tables::{JudgedRows, PagedTables};
use std::alloc::{AllocError, Global};
use table_map::JudgedRow;
use thiserror::Error;

/// Why no rows were read.
#[derive(Clone, Copy, Debug, PartialEq, Eq, Error)]
pub enum ReadError {
    /// Memory was refused.
    #[error("no memory")]
    NoMemory,
    /// The device failed, or gave back what was not written.
    #[error("the device failed")]
    DeviceFailed,
}

impl From<AllocError> for ReadError {
    ghost use Rattle.std.specs.Prelude.{◌≡◌};
    ghost use Rattle.ahead_view.specs.declared.source.ReadError.TheVariants.{NoMemory};

    ghost from_gives = { λ _ e. e ≡ NoMemory };

    fn from(_: AllocError) -> ReadError {
        ReadError::NoMemory
    }
}

/// Who reads the rows of tables over pages, from the device that has the pages. Contracts know it by
/// what a read makes of it: `holds` says of which tables the pages can be read there, `reads` what it is
/// once a read is answered or memory was refused in it, and `fails_to_read` what it is once the device
/// has failed in a read. Whether what is read is known to be what the tables have is a constant of the
/// type, `is_told`: it is so of a device that gives back what was written.
pub trait Source {
    ghost is_told: { Bool };

    ghost holds: { Self → Tables → Type 0 };

    ghost reads: { Self → Self → Type 0 };

    ghost fails_to_read: { Self → Self → Type 0 };

    /// The row of this key in the table of a name, in new memory, and whether it is known that it may be
    /// that of the table. Without a table, and for bytes that are no key of it, there is none.
    fn row(
        &mut self,
        alloc: Global,
        tables: &PagedTables,
        table: &str,
        key: &[u8],
    ) -> Result<JudgedRow, ReadError>
        requires { holds self.old tables.now.tables }
        ensures found { IsTrue is_told → IfOk result (λ found. copied found.row ≡ row_of (store_in tables.now) table.now key.now) }
        ensures judged { IfOk result (λ found. IsTrue found.is_judged → may_be_row (schema_of (store_in tables.now) table.now) (copied found.row) key.now ≡ true) }
        ensures read { LeavesReader reads fails_to_read self.old result self.new };

    /// All rows of the table of a name, in the order of their keys, in new memory, and whether it is known
    /// that they may be those of the table. Without a table there are none.
    fn rows(
        &mut self,
        alloc: Global,
        tables: &PagedTables,
        table: &str,
    ) -> Result<JudgedRows, ReadError>
        requires { holds self.old tables.now.tables }
        ensures rows { IsTrue is_told → IfOk result (λ judged. judged.rows ≡ rows_of (store_in tables.now) table.now) }
        ensures judged { IfOk result (λ judged. IsTrue judged.are_judged → may_be_rows (schema_of (store_in tables.now) table.now) judged.rows ≡ true) }
        ensures read { LeavesReader reads fails_to_read self.old result self.new };

    /// What the last read gave is no row of the table: the device counts as failed in that read.
    fn fail(&mut self)
        requires { is_told ≡ false }
        ensures { (before : Self) → reads before self.old → fails_to_read before self.new };

    /// Once something was read, the pages of tables can still be read there.
    ghost still_holds: { (old new : Self) (tables : Tables) → reads old new → holds old tables → holds new tables };
}
