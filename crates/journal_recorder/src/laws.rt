//! Laws of what a recorder does.

ghost use Rattle.journal_recorder.specs.Reading.{PagesAreKept};

use drda_disk::Disk;

/// Tables whose pages a recorder can read stay so behind a record that is made or left open, and behind
/// changes of the tables in memory: records stand behind the pages.
pub fn pages_are_kept<D: Disk>()
    ensures { PagesAreKept D.is_modelled D.life }
{}
