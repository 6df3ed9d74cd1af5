//! Groups that are laid ahead of being made.

use crate::asking::{lay_ahead, open_early};
use crate::book::Book;
use crate::wish::Wish;
use drda_disk::{Disk, Flushed, Flusher};

impl<D: Disk> Book<D> {
    ghost use Rattle.std.specs.Prelude.{◌≡◌, IsTrue};
    ghost use Rattle.durable_core.specs.Ahead.{LetsOpenEarly};
    ghost use Rattle.recovery.specs.Journaled.{Journaled, shown_on};
    ghost use Rattle.core_history.specs.Passes.{Rests};

    /// Lays the records of those wishes that `make_together` would fulfil now on the disk, ahead of being made, and hands out what
    /// flushes the disk, from another thread too. A hint, and no more: nothing is made, and nothing is listed. While nothing else is
    /// recorded, making them together then writes no more than that the records count.
    ///
    /// None where they do not lie there: there is none of them, they do not go together, there is no memory or no room for all, or the
    /// device fails, or had failed before; where it fails, the next call tells.
    pub fn lay_ahead(&mut self, wishes: &[Wish]) -> Option<Flusher>
        ensures rests { Rests self.old.core self.new.core }
        ensures rest { self.new ≡ record self.old { core = self.new.core } }
        ensures journaled { Journaled D.is_modelled (shown_on D.life self.old.core) (shown_on D.life self.new.core) }
    {
        recovery::laws::calls_go_on::<D>();
        self.core.is_durable();
        if !self.chosen.choose(&self.core, &self.places, wishes) {
            return None;
        }
        lay_ahead(&mut self.core, &mut self.chosen)
    }

    /// Has the records of those wishes that `make_together` would fulfil now, which were laid ahead, count on the disk before they are
    /// made, and hands out what flushes the disk, from another thread too. A hint, and no more: nothing is made, and nothing is listed.
    /// While nothing else is recorded, making them together then needs no call of the device, once the disk has settled again.
    /// Meanwhile a crash of the device leaves what is durable, or that behind all of these calls.
    ///
    /// None where they do not: see `lay_ahead`.
    pub fn open_early(&mut self, wishes: &[Wish]) -> Option<Flusher>
        requires early { IsTrue D.is_modelled → LetsOpenEarly D.allows }
        ensures rests { Rests self.old.core self.new.core }
        ensures rest { self.new ≡ record self.old { core = self.new.core } }
        ensures journaled { Journaled D.is_modelled (shown_on D.life self.old.core) (shown_on D.life self.new.core) }
    {
        recovery::laws::calls_go_on::<D>();
        self.core.is_durable();
        if !self.chosen.choose(&self.core, &self.places, wishes) {
            return None;
        }
        open_early(&mut self.core, &mut self.chosen)
    }

    /// Tells the disk what became of the flush. A flush that failed is to be told, whatever was done meanwhile: then the device has failed,
    /// and the next call tells.
    pub fn settle(&mut self, flushed: Flushed)
        ensures rests { Rests self.old.core self.new.core }
        ensures rest { self.new ≡ record self.old { core = self.new.core } }
        ensures journaled { Journaled D.is_modelled (shown_on D.life self.old.core) (shown_on D.life self.new.core) }
    {
        recovery::laws::calls_go_on::<D>();
        self.core.settle(flushed);
    }
}
