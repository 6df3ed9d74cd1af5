//! Laws of rows with changes, and of the forms of rows.

ghost use Rattle.key_map.specs.Merging.{ChangeFirst, ChangeHere, KnownByKeys, MergedAt, MergedInOrder, RowFirst};
ghost use Rattle.key_map.specs.RowForm.{RowsHaveTheirForms};

pub use crate::key_order::forms_keep_order;

/// At each key there is what a change says of it, and without a change what was there; the keys
/// are still in order.
pub fn changes_win()
    ensures at { MergedAt }
    ensures order { MergedInOrder }
{}

/// Rows in the order of their keys are known by what is found at each key.
pub fn rows_are_known_by_keys()
    ensures { KnownByKeys }
{}

/// What the rows with all changes made begin with, where both are in the order of their keys: the
/// change or the row whose key comes first, and of one key the change.
pub fn changes_and_rows_in_turn()
    ensures change { ChangeFirst }
    ensures row { RowFirst }
    ensures both { ChangeHere }
{}

/// The form of a row is the sort form of its key.
pub fn rows_have_their_forms()
    ensures { RowsHaveTheirForms }
{}
