//! What the words on a region say.
ghost use Rattle.unit_journal.specs.Laws.{OneReading, SomeReading, StagesRest};

use drda_disk::Disk;

/// A region reads in one way at most: as one list of records, or as damaged at one offset.
pub fn a_region_has_one_reading()
    ensures { OneReading }
{}

/// A region of bytes reads in one way at least: as records, or as damaged at an offset.
pub fn a_region_has_some_reading()
    ensures { SomeReading }
{}

/// Of a journal at rest the records that are there to stay are settled, and the other way round.
pub fn stages_begin_and_end_at_rest<D: Disk>()
    ensures { StagesRest D.is_modelled D.life }
{}
