//! Laws of the definitions. The functions do nothing: their contracts are the laws.

ghost use Rattle.row_values.specs.Laws.{KeysAreOrdered, KeysAreShort, KeysGoByValues, ReadWasWritten, RowsHaveKeys, RowsHaveTheirValues, SchemaReadWasWritten, SchemaWrittenIsRead, ValuesAreOrdered, WrittenIsRead};

/// Rows and keys correspond with their values, each way.
pub fn values_have_their_bytes()
    ensures written { WrittenIsRead }
    ensures read { ReadWasWritten }
{}

/// Schemas correspond with their bytes, each way.
pub fn schemas_have_their_bytes()
    ensures written { SchemaWrittenIsRead }
    ensures read { SchemaReadWasWritten }
{}

/// Values are totally ordered, and those that tie are equal.
pub fn values_are_ordered()
    ensures { ValuesAreOrdered }
{}

/// A row has a value for each column, and a key.
pub fn rows_have_values_and_keys()
    ensures values { RowsHaveTheirValues }
    ensures keys { RowsHaveKeys }
{}

/// Keys are totally ordered, by their values, and have at most 8,012 bytes.
pub fn keys_are_ordered()
    ensures total { KeysAreOrdered }
    ensures values { KeysGoByValues }
    ensures short { KeysAreShort }
{}
