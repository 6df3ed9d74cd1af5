//! What the texts are known for.

ghost use Rattle.sql_spelling.specs.Meant.{RowsAreRead, TablesAreRead};

/// The CREATE TABLE of a table is read as the statement that makes it, for every schema in which no
/// name is a word of the grammar.
pub fn tables_are_read()
    ensures { TablesAreRead }
{}

/// The INSERT of a row is read as the statement that inserts its values, for every row of every
/// schema: whatever bytes it holds, and whichever numbers.
pub fn rows_are_read()
    ensures { RowsAreRead }
{}
