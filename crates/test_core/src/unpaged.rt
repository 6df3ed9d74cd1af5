//! A recorder with tables that have no pages.

use crate::reader::{read_row, read_rows};
use ahead_view::{ReadError, Source};
use paged_tables::{JudgedRows, PagedTables};
use std::alloc::Global;
use table_map::JudgedRow;
use unit_records::{DeviceFailed, GroupError, RecordContents, RecordError, Recorder};

/// Records as another one does, and reads rows of tables that have no pages.
#[derive(Drop)]
pub struct Unpaged<R> {
    pub recorder: R,
}

impl<R: Recorder> Recorder for Unpaged<R> {
    ghost allows = { λ u said. R.allows u.recorder said };

    ghost records = { λ old said new. R.records old.recorder said new.recorder };

    ghost fails = { λ old said error new. R.fails old.recorder said error new.recorder };

    fn record(&mut self, saying: RecordContents<'_>) -> Result<(), RecordError> {
        self.recorder.record(saying)
    }

    ghost allows_all = { λ u said. R.allows_all u.recorder said };

    ghost records_all = { λ old said new. R.records_all old.recorder said new.recorder };

    ghost fails_all = { λ old said new. R.fails_all old.recorder said new.recorder };

    fn record_all(&mut self, sayings: &[RecordContents<'_>]) -> Result<(), GroupError> {
        self.recorder.record_all(sayings)
    }

    ghost lays_ahead = { λ old new. R.lays_ahead old.recorder new.recorder };

    ghost fails_ahead = { λ old new. R.fails_ahead old.recorder new.recorder };

    fn lay_ahead(&mut self, sayings: &[RecordContents<'_>]) -> Result<bool, DeviceFailed> {
        self.recorder.lay_ahead(sayings)
    }

    ghost lays_none = { λ u. R.lays_none u.recorder };
}

impl<R> Source for Unpaged<R> {
    ghost use Rattle.std.specs.Prelude.{false};
    ghost use Rattle.paged_tables.specs.TablesByName.{LieInside};

    ghost is_told = { false };

    ghost holds = { λ _ tables. LieInside 0 tables };

    ghost reads = { λ _ _. Unit {0} };

    ghost fails_to_read = { λ _ _. Unit {0} };

    fn row(
        &mut self,
        alloc: Global,
        tables: &PagedTables,
        table: &str,
        key: &[u8],
    ) -> Result<JudgedRow, ReadError> {
        read_row(alloc, tables, table, key)
    }

    fn rows(
        &mut self,
        alloc: Global,
        tables: &PagedTables,
        table: &str,
    ) -> Result<JudgedRows, ReadError> {
        read_rows(alloc, tables, table)
    }

    fn fail(&mut self) {}

    ghost still_holds = { λ _ _ _ _ h. h };
}
