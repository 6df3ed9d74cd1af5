//! How full a store is.

ghost use Rattle.std.specs.Prelude.{◌≡◌, ◌-◌, IsTrue, false, length, true};
ghost use Rattle.half_store.specs.Layout.{half_len};
ghost use Rattle.unit_journal.specs.Journal.{held_of, region_of, room_of};
ghost use Rattle.journal_recorder.specs.Recording.{disk_of, journal_of};
ghost use Rattle.recovery.specs.Journaled.{shown_on};
ghost use Rattle.durable_core.specs.Gauging.{IsDue, IsGauge, is_due};

use crate::durable::DurableCore;
use drda_disk::{Disk, PAGE_BYTES};
use journal_recorder::DiskRecorder;
use turns::Gauge;

/// A checkpoint is due where less than one part in so many of the journal is left for records,
const PARTS_LEFT: usize = 4;

/// or where the records since the last one take more than one part in so many of a half.
const PARTS_RECORDED: usize = 8;

// Whether a checkpoint is worth its writes, where the last one laid so many bytes of records: less than a quarter of the journal is
// left, or the records since take more than an eighth of the half.
fn is_due(gauge: Gauge, laid: usize) -> bool
    ensures { result ≡ is_due gauge laid }
{
    gauge.room < gauge.journal / PARTS_LEFT
        || gauge.half / PARTS_RECORDED < gauge.records.saturating_sub(laid)
}

// The bytes of a half of a disk of so many.
#[tactic(auto, unfolding(half_store::specs::Layout::half_len))]
fn half_of(size: usize) -> usize
    ensures { result ≡ half_len size }
{
    PAGE_BYTES * (size.saturating_sub(PAGE_BYTES) / (2 * PAGE_BYTES))
}

// What a recorder tells of it.
fn gauge_of<D: Disk>(recorder: &DiskRecorder<D>) -> Gauge
    ensures half { result.half ≡ half_len (length (D.life (disk_of recorder.now)).seen) }
    ensures journal { result.journal ≡ (region_of (journal_of recorder.now)).length }
    ensures tables { result.tables ≡ result.half - result.journal }
    ensures room { result.room ≡ room_of (journal_of recorder.now) }
    ensures records { result.records ≡ result.journal - result.room - held_of (journal_of recorder.now) - 1 }
{
    let (room, journal) = (recorder.room(), recorder.region().length);
    let taken = journal.saturating_sub(room);
    let half = half_of(recorder.disk().size());
    Gauge {
        room,
        records: taken.saturating_sub(recorder.held()).saturating_sub(1),
        journal,
        tables: half.saturating_sub(journal),
        half,
    }
}

impl<D: Disk> DurableCore<D> {
    /// How full the store is. Makes no device call; nothing is said of it once the device has failed.
    pub fn gauge(&self) -> Gauge
        ensures gauge { IsTrue D.is_modelled → self.now.is_failed ≡ false → IsGauge (shown_on D.life self.now) result }
        ensures room { result.room ≡ self.now.room }
    {
        gauge_of(self.core.recorder())
    }

    /// Whether a checkpoint is worth its writes, where the last one laid so many bytes of records; of a store whose last one is not
    /// known that is 0. Makes no device call.
    pub fn is_checkpoint_due(&self, laid: usize) -> bool
        ensures due { IsTrue D.is_modelled → self.now.is_failed ≡ false → IsDue (shown_on D.life self.now) laid result }
        ensures failed { self.now.is_failed ≡ true → result ≡ false }
    {
        if self.core.recorder().is_failed() {
            return false;
        }
        is_due(self.gauge(), laid)
    }
}
