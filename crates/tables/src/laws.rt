//! Laws of the definitions. The functions do nothing: their contracts are the laws.

ghost use Rattle.tables.specs.Laws.{ChangeReadWasWritten, ChangeWrittenIsRead, Created, FoundAreRows, NamesAreWhatIsKnown, NamesChange, Put, Removed, RowsAreFound, RowsAreWhatIsFound, StoresAreKept, StoresAreWhatTheyShow, TableCreated, TablePut, TableRemoved, TablesAreTables};
ghost use Rattle.tables.specs.Projected.{ProjectedRowsAreShort};

/// Changes correspond with their bytes, each way.
pub fn changes_have_their_bytes()
    ensures written { ChangeWrittenIsRead }
    ensures read { ChangeReadWasWritten }
{}

/// What a change does to a store, seen table by table and row by row. Where it has no place, a
/// change does nothing.
pub fn changes_are_local()
    ensures created { Created }
    ensures put { Put }
    ensures removed { Removed }
    ensures kept { StoresAreKept }
{}

/// What a change makes of each table, and of the list of names.
pub fn changes_make_tables()
    ensures created { TableCreated }
    ensures put { TablePut }
    ensures removed { TableRemoved }
    ensures names { NamesChange }
{}

/// A table that is found in a store is one, and a row that is found is one of its schema at that key;
/// the rows of a table are those that are found, in the order of their keys.
pub fn stores_hold_tables()
    ensures tables { TablesAreTables }
    ensures rows { FoundAreRows }
    ensures lists { RowsAreFound }
{}

/// A store is known by what it shows: its schemas, and its rows at their keys.
pub fn stores_are_what_they_show()
    ensures whole { StoresAreWhatTheyShow }
    ensures rows { RowsAreWhatIsFound }
    ensures names { NamesAreWhatIsKnown }
{}

/// A row of an answer, of which at most 64 columns are asked for, a column perhaps more than once, has
/// at most 128,194 bytes as it is sent, though a row that is kept has at most 4,000.
pub fn projected_rows_are_short()
    ensures { ProjectedRowsAreShort }
{}
