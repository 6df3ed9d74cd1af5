//! The checkpoints that a book writes.

ghost use Rattle.std.specs.Prelude.{◌≡◌};
ghost use Rattle.core_history.specs.Fillings.{has_many};

use crate::filling::Filling;
use drda_disk::Disk;
use durable_core::{Checkpointed, DurableCore};
use turns::{Gauge, Lack};

/// So many bytes of records since the last checkpoint are let stand behind a group, however small the store is,
const LET_STAND: usize = 16 << 20;

/// and of a larger store as many as this part of a half.
const PARTS_LET_STAND: usize = 16;

/// The checkpoints that a book writes: how many were written since it was opened, and how many bytes of records the last one laid;
/// how full the core was behind the last one that was written, or that had no room; and whether that had none.
#[derive(Clone, Copy)]
pub struct Renewals {
    pub(crate) written: u64,
    pub(crate) laid: usize,
    pub(crate) last: Option<Filling>,
    pub(crate) lacks_half: bool,
}

// Whether many bytes of records stand since the last checkpoint, which laid so many.
fn has_many_records(gauge: Gauge, laid: usize) -> bool
    ensures { result ≡ has_many gauge laid }
{
    let since = gauge.records.saturating_sub(laid);
    since > LET_STAND && since > gauge.half / PARTS_LET_STAND
}

impl Renewals {
    ghost use Rattle.std.specs.Prelude.{◌≡◌, ◌<◌, ◌↔◌, IsTrue, None, Some, false, true};
    ghost use Rattle.durable_core.specs.Checkpointing.{half_bytes_for, need_for};
    ghost use Rattle.durable_core.specs.Gauging.{IsDue};
    ghost use Rattle.recovery.specs.Journaled.{Journaled, shown_on};
    ghost use Rattle.core_history.specs.Fillings.{IsOverdue, filling_of};
    ghost use Rattle.core_history.specs.Passes.{Rests};

    /// None was written yet.
    pub(crate) fn none() -> Renewals
        ensures { result ≡ record { written = 0; laid = 0; last = None; lacks_half = false } }
    {
        Renewals {
            written: 0,
            laid: 0,
            last: None,
            lacks_half: false,
        }
    }

    /// How many were written.
    pub(crate) fn written(&self) -> u64
        ensures { result ≡ self.now.written }
    {
        self.written
    }

    /// Whether a checkpoint is due by how full the core is, and by what the last one laid.
    pub(crate) fn is_due<D: Disk>(&self, core: &DurableCore<D>) -> bool
        ensures { IsTrue D.is_modelled → core.now.is_failed ≡ false → IsDue (shown_on D.life core.now) self.now.laid result }
    {
        core.is_checkpoint_due(self.laid)
    }

    /// Whether a checkpoint is due behind a group already, since a conversation may go on for ever: an opening replays all records since
    /// the last one, and memory keeps their rows. So it is where these take more than 16 MiB and a sixteenth of a half, but for tables
    /// that no longer fit in a half.
    pub(crate) fn is_overdue<D: Disk>(&self, core: &DurableCore<D>) -> bool
        ensures overdue { IsTrue D.is_modelled → core.now.is_failed ≡ false → self.now.lacks_half ≡ false → IsOverdue (shown_on D.life core.now) self.now.laid result }
        ensures lacks { self.now.lacks_half ≡ true → result ≡ false }
    {
        if self.lacks_half {
            return false;
        }
        has_many_records(core.gauge(), self.laid)
    }

    /// What a record has no room in that this core has none for. No clause says anything of it.
    pub(crate) fn lack<D: Disk>(&self, core: &DurableCore<D>) -> Lack {
        if self.lacks_half {
            return Lack::Half;
        }
        if self.is_as_full(core) {
            return Lack::Unit;
        }
        Lack::Journal
    }

    /// Writes a checkpoint, unless the core is as full as behind the last one: then another gains none, and whoever
    /// asks again and again would hold all others up. Where it has no room, or memory is refused, the core goes on
    /// without; where the device fails, the next call tells.
    pub(crate) fn renew<D: Disk>(&mut self, core: &mut DurableCore<D>)
        ensures rests { Rests core.old core.new }
        ensures lacks { IsTrue D.is_modelled → self.old.lacks_half ≡ false → self.new.lacks_half ≡ true → half_bytes_for (shown_on D.life core.old) < need_for (shown_on D.life core.old) }
        ensures once { self.old.last ≡ Some (filling_of core.old) → (core.new ≡ core.old) × (self.new ≡ self.old) }
        ensures journaled { Journaled D.is_modelled (shown_on D.life core.old) (shown_on D.life core.new) }
    {
        recovery::laws::calls_go_on::<D>();
        core.is_durable();
        if self.is_as_full(core) {
            return;
        }
        match core.checkpoint() {
            Checkpointed::Done => {
                self.written = self.written.wrapping_add(1);
                self.laid = core.gauge().records;
                self.last = Some(Filling::of(core));
                self.lacks_half = false;
            }
            Checkpointed::Full { need: _, room: _ } => {
                self.last = Some(Filling::of(core));
                self.lacks_half = true;
            }
            _ => {}
        }
    }

    // Whether the core is as full as behind the last one.
    fn is_as_full<D: Disk>(&self, core: &DurableCore<D>) -> bool
        ensures { IsTrue result ↔ (self.now.last ≡ Some (filling_of core.now)) }
    {
        match self.last {
            Some(last) => last == Filling::of(core),
            None => false,
        }
    }
}
