//! Laws of the definitions. The functions do nothing: their contracts are the laws.

ghost use Rattle.sql_semantics.specs.Frame.{CoveredIsEnough, FrameLaw, Lies, RowsHaveTheirKeys};

/// What a statement is answered depends on what it claims alone, and what it changes lies in what it
/// claims to write.
pub fn statements_are_framed()
    // the rows outside of what is claimed change no answer
    ensures enough { CoveredIsEnough }
    // stores that agree on the table's schema, or its absence, and on what is claimed give equal
    // claims, answers and changes
    ensures framed { FrameLaw }
    // the row of a key has that key
    ensures keys { RowsHaveTheirKeys }
    // each change lies in a write claim of its statement
    ensures lies { Lies }
{
    row_values::laws::keys_are_ordered();
    row_values::laws::values_have_their_bytes();
}
