//! Writing the pages of a checkpoint.
ghost use Rattle.std.specs.Prelude.{◌+◌, ◌*◌, IfOk, length};
ghost use Rattle.drda_disk.specs.Layout.{page_bytes};
ghost use Rattle.half_store.specs.Writing.{next_of};
ghost use Rattle.checkpoint_writer.specs.Adding.{AddsPages, end_of_half};
ghost use Rattle.checkpoint_writer.specs.Errors.{CountsImage};
ghost use Rattle.store_check.specs.Room.{pages_of_catalogue, pages_of_tables};
ghost use Rattle.paged_checkpoints.specs.Apart.{AreReadable};
ghost use Rattle.paged_checkpoints.specs.Laying.{all_shown};
ghost use Rattle.paged_checkpoints.specs.Written.{AreIn, HaveAll, IsBegun, TellsPages};

use crate::table_pages::write_tables;
use checkpoint_writer::{ImageError, write_catalogue};
use drda_disk::Disk;
use half_store::ImageWriter;
use paged_tables::TablesLeft;
use std::alloc::Global;
use table_map::TablePages;

/// The pages of tables in an image, and the number of its catalogue's first page.
#[derive(Drop)]
pub(crate) struct WrittenPages {
    pub(crate) pages: Vec<TablePages>,
    pub(crate) first_catalogue: u32,
}

/// Writes the pages of all tables that are left to lend, and behind them those of their catalogue, into
/// an image that has no pages.
pub(crate) fn write_pages<'a, D: Disk>(
    alloc: Global,
    disk: &mut D,
    image: &mut ImageWriter,
    tables: TablesLeft<'a>,
) -> Result<WrittenPages, ImageError>
    requires { IsBegun (length (D.life disk.old).seen) image.old tables }
    ensures adds { AddsPages D.is_modelled (D.life disk.old) (D.life disk.new) image.old image.new }
    ensures listed { IfOk result (AreIn image.new tables.entry) }
    ensures written { AreReadable D.is_modelled (D.life disk.old).seen image.old tables.entry → IfOk result (HaveAll (D.life disk.new).seen image.new tables.entry) }
    ensures told { AreReadable D.is_modelled (D.life disk.old).seen image.old tables.entry
        → TellsPages result (end_of_half image.old) (next_of image.old + page_bytes * (pages_of_tables (all_shown tables.entry) + pages_of_catalogue (all_shown tables.entry))) }
    ensures cause { CountsImage result (D.life disk.old).faults (D.life disk.new).faults }
{
    row_pages::laws::one_laying();
    store_check::laws::written_half_is_whole();
    let laid = write_tables(alloc, disk, image, tables)?;
    let first_catalogue = image.pages();
    write_catalogue(alloc, disk, image, &laid.places)?;
    Ok(WrittenPages {
        pages: laid.pages,
        first_catalogue,
    })
}
