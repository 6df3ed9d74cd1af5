//! Writing one page.
ghost use Rattle.std.specs.Prelude.{◌≡◌, ◌+◌, ◌*◌, ◌≤◌, IsTrue, OnOk, length};
ghost use Rattle.drda_words.specs.Place.{part};
ghost use Rattle.drda_disk.specs.Layout.{page_bytes};
ghost use Rattle.half_store.specs.Writing.{from_of, half_bytes_of, next_of, pages_of};
ghost use Rattle.checkpoint_writer.specs.Adding.{AddsPages, end_of_half};
ghost use Rattle.checkpoint_writer.specs.Errors.{CountsImage, DamagedWhere, TellsFull};

use crate::ImageError;
use drda_disk::Disk;
use half_store::ImageWriter;

/// Writes a page of 8,192 bytes behind the others.
pub(crate) fn write_page<D: Disk>(
    disk: &mut D,
    image: &mut ImageWriter,
    bytes: &[u8],
) -> Result<(), ImageError>
    requires page { length bytes.now ≡ page_bytes }
    requires inside { from_of image.old + half_bytes_of image.old ≤ length (D.life disk.old).seen }
    ensures adds { AddsPages D.is_modelled (D.life disk.old) (D.life disk.new) image.old image.new }
    ensures written { OnOk result (IsTrue D.is_modelled → part (D.life disk.new).seen (next_of image.old) page_bytes ≡ bytes.now) }
    ensures pages { OnOk result (pages_of image.new ≡ pages_of image.old + 1) }
    ensures full { TellsFull result (end_of_half image.old) (next_of image.old + page_bytes) }
    ensures damaged { DamagedWhere ⊥ result }
    ensures cause { CountsImage result (D.life disk.old).faults (D.life disk.new).faults }
{
    image.page(disk, bytes)?;
    Ok(())
}
