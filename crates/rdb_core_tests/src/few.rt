//! Who records and reads here.

ghost use Rattle.std.specs.Prelude.{◌≡◌};

use ahead_view::{ReadError, Source};
use paged_tables::{JudgedRows, PagedTables};
use std::alloc::{AllocError, Global};
use table_map::JudgedRow;
use tables::Rows;
use test_core::{read_row, read_rows};
use unit_records::{DeviceFailed, GroupError, RecordContents, RecordError, Recorder};

/// What a read gives in the place of a row.
#[derive(Clone, Copy)]
pub enum Given {
    /// The row itself.
    Written,
    /// The row with another last byte.
    Other,
    /// The row without its last byte.
    Cut,
}

/// Makes so many records, and refuses those that follow; lays none ahead while its fault is that of a device. Reads rows of tables without
/// pages, counts the reads and those in which the device counts as failed, and refuses each while it has a fault.
#[derive(Drop)]
pub struct Few {
    pub left: u32,
    /// How many were laid ahead last.
    pub laid: usize,
    pub reads: u32,
    pub failures: u32,
    pub fault: Option<ReadError>,
    pub given: Given,
}

impl Few {
    /// Makes so many records, and has read nothing.
    pub fn new(left: u32) -> Few {
        Few {
            left,
            laid: 0,
            reads: 0,
            failures: 0,
            fault: None,
            given: Given::Written,
        }
    }

    // One read more, or why there is none.
    fn count_read(&mut self) -> Result<(), ReadError> {
        self.reads = self.reads.saturating_add(1);
        match self.fault {
            Some(fault) => Err(fault),
            None => Ok(()),
        }
    }

    // What is given in the place of a row.
    fn give(&self, alloc: Global, row: &[u8]) -> Result<Vec<u8>, AllocError> {
        let mut bytes = Vec::from_slice(alloc, row)?;
        match self.given {
            Given::Written => {}
            Given::Other => flip_last(&mut bytes),
            Given::Cut => {
                let _last = bytes.pop();
            }
        }
        Ok(bytes)
    }

    // What is given in the place of rows.
    fn give_all(&self, alloc: Global, rows: &Rows) -> Result<Rows, AllocError> {
        let mut given = Rows::new(alloc);
        for i in 0..rows.len() {
            given.push(self.give(alloc, rows.row(i))?.as_slice())?;
        }
        Ok(given)
    }
}

// Makes the last byte another one.
fn flip_last(bytes: &mut Vec<u8>) {
    if let Some(last) = bytes.last_mut() {
        *last ^= 1;
    }
}

impl Source for Few {
    ghost use Rattle.std.specs.Prelude.{false};
    ghost use Rattle.paged_tables.specs.TablesByName.{LieInside};

    ghost is_told = { false };

    ghost holds = { λ _ tables. LieInside 0 tables };

    ghost reads = { λ _ _. Unit {0} };

    ghost fails_to_read = { λ _ _. Unit {0} };

    fn row(
        &mut self,
        alloc: Global,
        tables: &PagedTables,
        table: &str,
        key: &[u8],
    ) -> Result<JudgedRow, ReadError> {
        self.count_read()?;
        let row = match read_row(alloc, tables, table, key)?.row {
            Some(row) => Some(self.give(alloc, row.as_slice())?),
            None => None,
        };
        Ok(JudgedRow {
            row,
            is_judged: false,
        })
    }

    fn rows(
        &mut self,
        alloc: Global,
        tables: &PagedTables,
        table: &str,
    ) -> Result<JudgedRows, ReadError> {
        self.count_read()?;
        let JudgedRows {
            rows,
            are_judged: _,
        } = read_rows(alloc, tables, table)?;
        Ok(JudgedRows {
            rows: self.give_all(alloc, &rows)?,
            are_judged: false,
        })
    }

    fn fail(&mut self) {
        self.failures = self.failures.saturating_add(1);
    }

    ghost still_holds = { λ _ _ _ _ h. h };
}

impl Recorder for Few {
    ghost allows = { λ _ _. Unit {0} };

    ghost records = { λ _ _ _. Unit {0} };

    ghost fails = { λ _ _ _ _. Unit {0} };

    fn record(&mut self, _saying: RecordContents<'_>) -> Result<(), RecordError> {
        if self.left == 0 {
            return Err(RecordError::Full { need: 9, room: 8 });
        }
        self.left -= 1;
        Ok(())
    }

    ghost allows_all = { λ _ _. Unit {0} };

    ghost records_all = { λ _ _ _. Unit {0} };

    ghost fails_all = { λ _ _ _. Unit {0} };

    fn record_all(&mut self, sayings: &[RecordContents<'_>]) -> Result<(), GroupError> {
        if sayings.len() > self.left as usize {
            return Err(GroupError::Refused);
        }
        self.left -= sayings.len() as u32;
        Ok(())
    }

    ghost lays_ahead = { λ _ _. Unit {0} };

    ghost fails_ahead = { λ _ _. Unit {0} };

    fn lay_ahead(&mut self, sayings: &[RecordContents<'_>]) -> Result<bool, DeviceFailed> {
        if self.fault == Some(ReadError::DeviceFailed) {
            return Err(DeviceFailed);
        }
        self.laid = sayings.len();
        Ok(sayings.len() <= self.left as usize)
    }

    ghost lays_none = { λ _. tt };
}
