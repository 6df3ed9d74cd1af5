//! A disk over another, on which one byte may stand that does not count yet.

use crate::rule::EarlyRule;
use crate::shown::Showing;
use drda_disk::{Disk, DiskFault};
use std::marker::{Model, PhantomData};

/// A byte that was written early: its offset, which one it is, and which one counts. Where its write failed, either may stand there.
#[derive(Clone, Copy)]
pub(crate) struct EarlyByte {
    pub(crate) at: usize,
    pub(crate) byte: u8,
    pub(crate) was: u8,
    pub(crate) is_written: bool,
}

/// A disk over another, on which one byte may be written early, so that it is flushed from outside before it counts. Whoever reads and
/// writes sees the disk without it, until that byte is written there: then it counts, and needs no call of the device. Before any other
/// write, and before a read of its place, it is taken back. Clauses on what a crash leaves are of what is seen so; what the disk inside may
/// leave besides is that with any byte in the place of the early one.
#[derive(Drop)]
pub struct EarlyDisk<D: Disk, P: EarlyRule> {
    pub(crate) inner: D,
    pub(crate) early: Option<EarlyByte>,
    /// Nothing was written to the disk inside since the last sync.
    pub(crate) is_settled: bool,
    pub(crate) shown: Showing<D>,
    pub(crate) rule: PhantomData<P>,
}

impl<D: Disk, P: EarlyRule> Model for EarlyDisk<D, P> {
    ghost use Rattle.early_disk.specs.Early.{IsShown, Parts};

    ghost Value = { Parts D };

    ghost view = { λ d. record { inner = d.inner; early = d.early; is_settled = d.is_settled; shown = d.shown.disk.value } };

    ghost invariant = { λ d. IsShown D.is_modelled D.life P.allows d.inner d.early d.is_settled d.shown.disk.value };
}

impl<D: Disk, P: EarlyRule> EarlyDisk<D, P> {
    ghost use Rattle.std.specs.Prelude.{◌≡◌, IsTrue, None, OnOk};
    ghost use Rattle.drda_disk.specs.Disk.{CountsFault};
    ghost use Rattle.early_disk.specs.Early.{HasLeft, LeavesNow};
    ghost use Rattle.early_disk.specs.Shown.{first_shown};

    /// Over this disk. No byte is early.
    pub fn new(inner: D) -> EarlyDisk<D, P>
        ensures inner { result.inner ≡ inner }
        ensures early { result.early ≡ None }
        ensures shown { result.shown ≡ first_shown (D.life inner).seen (D.life inner).moment inner }
    {
        let shown = Showing::of(&inner);
        EarlyDisk {
            inner,
            early: None,
            is_settled: false,
            shown,
            rule: PhantomData,
        }
    }

    /// The disk inside, on which a byte may be early.
    pub fn into_inner(self) -> D
        ensures { result ≡ self.inner }
    {
        self.inner
    }

    /// What a crash leaves of the disk inside, where it gives back what was written: what it may leave of what is seen, or what may be
    /// left besides; and at each moment since it lies here one of these.
    pub fn leaves(&self)
        ensures now { LeavesNow D.is_modelled D.life P.allows self.now }
        ensures left { IsTrue D.is_modelled → HasLeft D.is_modelled D.life P.allows self.now.inner self.now.shown }
    {
        let _ = &self.inner;
    }

    /// Takes the early byte back, where there is one: the one that counts is written over it, to stay.
    pub(crate) fn take_back(&mut self) -> Result<(), DiskFault>
        ensures faults { CountsFault result (D.life self.old.inner).faults (D.life self.new.inner).faults }
        ensures none { OnOk result (self.new.early ≡ None) }
        ensures shown { self.new.shown ≡ self.old.shown }
    {
        let Some(early) = self.early else {
            return Ok(());
        };
        self.is_settled = false;
        self.early = Some(EarlyByte {
            is_written: false,
            ..early
        });
        self.inner.write_at(early.at, &[early.was])?;
        self.inner.sync()?;
        self.early = None;
        self.is_settled = true;
        Ok(())
    }
}
