//! Laws of tables over pages.

ghost use Rattle.paged_tables.specs.Laws.{RowsHaveForms};

/// Bytes that are rows of a schema stand at the forms of their keys: what is left to ask of rows that
/// pages have (`AreRowsOf`) is that the forms rise.
pub fn rows_stand_at_their_forms()
    ensures { RowsHaveForms }
{
    row_values::laws::rows_have_values_and_keys();
    key_map::laws::rows_have_their_forms();
}
