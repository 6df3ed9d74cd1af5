//! Rows that are given in the place of a device's.

ghost use Rattle.std.specs.Prelude.{◌≡◌, false, true};

use ahead_view::{ReadError, Source};
use paged_tables::{JudgedRows, PagedTables};
use std::alloc::Global;
use std::mem;
use table_map::JudgedRow;
use tables::Rows;

/// Gives these rows, whatever table is asked for, and the first of them as the row of whatever key.
#[derive(Drop)]
pub struct Given {
    rows: Rows,
    is_failed: bool,
}

impl Given {
    /// Gives these.
    pub fn new(rows: Rows) -> Given {
        Given {
            rows,
            is_failed: false,
        }
    }

    /// Whether a read counted as a failure of the device.
    pub fn is_failed(&self) -> bool
        ensures { result ≡ self.now.is_failed }
    {
        self.is_failed
    }
}

impl Source for Given {
    ghost is_told = { false };

    ghost holds = { λ _ _. Unit {0} };

    ghost reads = { λ old new. new.is_failed ≡ old.is_failed };

    ghost fails_to_read = { λ _ new. new.is_failed ≡ true };

    fn row(
        &mut self,
        alloc: Global,
        tables: &PagedTables,
        table: &str,
        key: &[u8],
    ) -> Result<JudgedRow, ReadError> {
        let row = if self.rows.is_empty() {
            None
        } else {
            Some(Vec::from_slice(alloc, self.rows.row(0))?)
        };
        Ok(JudgedRow {
            row,
            is_judged: false,
        })
    }

    fn rows(
        &mut self,
        alloc: Global,
        tables: &PagedTables,
        table: &str,
    ) -> Result<JudgedRows, ReadError> {
        Ok(JudgedRows {
            rows: mem::replace(&mut self.rows, Rows::new(alloc)),
            are_judged: false,
        })
    }

    fn fail(&mut self) {
        self.is_failed = true;
    }

    ghost still_holds = { λ _ _ _ _ holds. holds };
}
