//! The memory that a page is read into.

ghost use Rattle.std.specs.Prelude.{◌≤◌, ◌+◌, IsTrue, IfOk, length};
ghost use Rattle.drda_words.specs.Place.{part};
ghost use Rattle.drda_disk.specs.Disk.{Stays};
ghost use Rattle.drda_disk.specs.Layout.{page_bytes};
ghost use Rattle.row_pages.specs.Page.{IsPage};
ghost use Rattle.row_pages.specs.Keeping.{CountsPageFault, TellsDamage};

use crate::kept::{KeptPage, PageFault};
use drda_disk::{Disk, PAGE_BYTES};
use std::alloc::{AllocError, Global};
use std::marker::Model;

/// The memory of one page: 8,192 bytes, and a list for the places of its rows. What stands in it counts for
/// nothing, since a page that is read into it fills all of its bytes: so contracts see nothing of it.
#[derive(Drop)]
pub(crate) struct PageMemory {
    bytes: Vec<u8>,
    starts: Vec<u16>,
}

impl Model for PageMemory {
    ghost use Rattle.std.specs.Prelude.{◌≡◌, length};
    ghost use Rattle.drda_disk.specs.Layout.{page_bytes};

    ghost Value = { Unit {0} };

    ghost view = { λ _. tt };

    ghost invariant = { λ m. length m.bytes.items ≡ page_bytes };
}

impl PageMemory {
    /// New memory, where it is to be had.
    pub(crate) fn new(alloc: Global) -> Result<PageMemory, AllocError> {
        Ok(PageMemory {
            bytes: vec![in alloc; 0; PAGE_BYTES]?,
            starts: Vec::new(alloc),
        })
    }

    /// The memory of a page that is kept no longer. Takes no memory.
    pub(crate) fn of(page: KeptPage) -> PageMemory {
        let (bytes, starts) = page.into_parts();
        PageMemory { bytes, starts }
    }

    /// The page that the disk reads at an offset, in this memory, which is let go of where there is no page. The
    /// range lies inside the disk. `Damaged` is told only where the bytes there are no page, `NoMemory` only where
    /// the list has no room for the places of the page's rows, and no more is to be had.
    pub(crate) fn read<D: Disk>(self, disk: &mut D, at: usize) -> Result<KeptPage, PageFault>
        requires { at + page_bytes ≤ length (D.life disk.old).seen }
        ensures page { IfOk result (λ page. IsTrue D.is_modelled → IsPage page (part (D.life disk.old).seen at page_bytes)) }
        ensures damaged { IsTrue D.is_modelled → TellsDamage (part (D.life disk.old).seen at page_bytes) result }
        ensures stays { Stays (D.life disk.old) (D.life disk.new) }
        ensures faults { CountsPageFault result (D.life disk.old).faults (D.life disk.new).faults }
    {
        let PageMemory { mut bytes, starts } = self;
        match disk.read_at(at, &mut bytes) {
            Ok(()) => KeptPage::parse(bytes, starts),
            Err(_) => Err(PageFault::DeviceFailed),
        }
    }
}
