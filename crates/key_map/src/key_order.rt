//! Laws of the definitions. The functions do nothing: their contracts are the laws.

ghost use Rattle.key_map.specs.SortForm.{KeysKeepOrder, ValuesKeepOrder};

/// The forms of values, and so those of keys of one schema, have the order of what they stand for.
pub fn forms_keep_order()
    ensures values { ValuesKeepOrder }
    ensures keys { KeysKeepOrder }
{
    row_values::laws::keys_are_ordered();
    row_values::laws::values_have_their_bytes();
}
