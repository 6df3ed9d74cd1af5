//! Laws of tables on pages.
ghost use Rattle.table_map.specs.Damage.{StoredHasPage, StoredIsWhole};

/// A table whose pages stand there, with rows on each and rising keys, is damaged nowhere: what is
/// told to be damaged is no such table.
pub fn stored_tables_are_whole()
    ensures pages { StoredIsWhole }
    ensures key { StoredHasPage }
{}
