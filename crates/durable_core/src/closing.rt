//! The end of a core, which leaves its tables and its disk.

ghost use Rattle.std.specs.Prelude.{◌≡◌, IsTrue, false, length};
ghost use Rattle.paged_tables.specs.PagedTables.{store_in};
ghost use Rattle.paged_tables.specs.TablesByName.{AreOnPages, LieInside};

use crate::durable::DurableCore;
use drda_disk::Disk;
use paged_tables::PagedTables;

impl<D: Disk> DurableCore<D> {
    /// Ends the core: its committed tables, and the disk, as the last call left it. The rows of the tables stand on their
    /// pages there, unless the device has failed.
    pub fn into_tables(self) -> (PagedTables, D)
        ensures tables { store_in result.0 ≡ self.state.base.store }
        ensures disk { result.1 ≡ self.disk }
        ensures inside { LieInside (length (D.life result.1).seen) result.0.tables }
        ensures stand { IsTrue D.is_modelled → self.is_failed ≡ false → AreOnPages (D.life result.1).seen result.0.tables }
    {
        let core = self.core;
        let recorder = core.recorder;
        (core.base.tables, recorder.into_disk())
    }
}
