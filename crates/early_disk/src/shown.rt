//! What is shown of a disk, which clauses alone read.

use drda_disk::Disk;
use drda_words::GhostValue;
use std::marker::{Model, PhantomData};

/// What is shown of a disk over a `D`, as clauses see it.
#[derive(Drop)]
pub(crate) struct ShownDisk<D> {
    marker: PhantomData<D>,
}

impl<D> Model for ShownDisk<D> {
    ghost use Rattle.std.specs.Prelude.{[]};
    ghost use Rattle.early_disk.specs.Shown.{Shown};

    ghost Value = { Shown D };

    ghost view = { λ _. record { seen = []; moment = 0; pasts = []; first = 0 } };
}

/// What is shown so far. It takes no memory.
#[derive(Drop)]
pub(crate) struct Showing<D> {
    pub(crate) disk: GhostValue<ShownDisk<D>>,
}

impl<D: Disk> Showing<D> {
    ghost use Rattle.std.specs.Prelude.{◌≡◌};
    ghost use Rattle.early_disk.specs.Shown.{behind_sync, behind_write, first_shown};

    /// Of a disk over this one.
    pub(crate) fn of(inner: &D) -> Showing<D>
        ensures { result.disk.value ≡ first_shown (D.life inner.now).seen (D.life inner.now).moment inner.now }
    {
        Showing {
            disk: GhostValue::of(inner),
        }
    }

    /// A write counts, behind which the disk inside is this one.
    pub(crate) fn note_write(&mut self, inner: &D)
        ensures { self.new.disk.value ≡ behind_write D.is_modelled D.life self.old.disk.value inner.now }
    {
        self.disk.set(inner);
    }

    /// A sync.
    pub(crate) fn note_sync(&mut self)
        ensures { self.new.disk.value ≡ behind_sync self.old.disk.value }
    {
        self.disk.set(&());
    }
}
