//! Reading rows of tables over pages.

ghost use Rattle.std.specs.Prelude.{◌≡◌};

use crate::recorder::DiskRecorder;
use ahead_view::{ReadError, Source};
use drda_disk::Disk;
use paged_tables::{JudgedRows, PagedTables};
use row_pages::PageFault;
use std::alloc::Global;
use table_map::JudgedRow;

/// How many pages are kept where each is looked at once.
pub const CACHED_PAGES: usize = 64;

/// A key that was changed since the last checkpoint is looked up in memory; else one page is read for a
/// row, at most, and each page of a table once for all its rows. `NoMemory` comes where memory is refused;
/// nothing has changed then. `DeviceFailed` comes where the device fails or has failed before, or gives
/// back what is no page, as one that gives back what was written does not; nothing is recorded or read
/// any more then.
impl<D: Disk> Source for DiskRecorder<D> {
    ghost use Rattle.journal_recorder.specs.Reading.{FailsToRead, HasPages, Reads};

    ghost is_told = { D.is_modelled };

    ghost holds = { λ recorder tables. HasPages D.is_modelled D.life recorder tables };

    ghost reads = { λ old new. Reads D.is_modelled D.life old new };

    ghost fails_to_read = { λ old new. FailsToRead D.is_modelled D.life old new };

    fn row(
        &mut self,
        alloc: Global,
        tables: &PagedTables,
        table: &str,
        key: &[u8],
    ) -> Result<JudgedRow, ReadError> {
        if self.is_failed {
            return Err(ReadError::DeviceFailed);
        }
        match tables.row(alloc, &mut self.pager, table, key) {
            Ok(row) => Ok(row),
            Err(fault) => Err(self.not_read(fault)),
        }
    }

    fn rows(
        &mut self,
        alloc: Global,
        tables: &PagedTables,
        table: &str,
    ) -> Result<JudgedRows, ReadError> {
        if self.is_failed {
            return Err(ReadError::DeviceFailed);
        }
        match tables.judged_rows(alloc, &mut self.pager, table) {
            Ok(rows) => Ok(rows),
            Err(fault) => Err(self.not_read(fault)),
        }
    }

    fn fail(&mut self) {
        self.is_failed = true;
    }

    ghost still_holds = { λ old new tables reads holds. reads.pages tables holds };
}

impl<D: Disk> DiskRecorder<D> {
    ghost use Rattle.journal_recorder.specs.Reading.{Remembers};

    // Why nothing was read. That the device failed is remembered, and so is a page that is not as it was written.
    fn not_read(&mut self, fault: PageFault) -> ReadError
        ensures { Remembers self.old fault result self.new }
    {
        match fault {
            PageFault::NoMemory => ReadError::NoMemory,
            PageFault::DeviceFailed | PageFault::Damaged => {
                self.is_failed = true;
                ReadError::DeviceFailed
            }
        }
    }
}
