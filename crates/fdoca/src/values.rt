//! The values of a row.

use row_values::Value;
use std::marker::Model;

/// How many values of a row, and fields of a descriptor, are kept without an allocation.
pub(crate) const KEPT_IN_PLACE: usize = 16;

/// The values of a row, in order. Texts and bytes are slices of the row; up to 16 values are kept
/// without an allocation.
#[derive(Drop)]
pub struct Values<'a> {
    /// The first `count` of these, or else all of `many`.
    pub(crate) few: [Value<'a>; KEPT_IN_PLACE],
    pub(crate) count: usize,
    pub(crate) many: Vec<Value<'a>>,
}

impl<'a> Model for Values<'a> {
    ghost use Rattle.std.specs.Prelude.{◌++◌, List, map, take};
    ghost use Rattle.row_values.specs.Value as spec;
    ghost use Rattle.row_values.specs.Value.{value_of};
    ghost use Rattle.fdoca.specs.Held.{IsHeld};

    ghost Value = { List spec.Value };

    ghost view = { λ v. map value_of (take v.count v.few ++ v.many.items) };

    ghost invariant = { λ v. IsHeld v.count v.many.items };
}

impl<'a> Values<'a> {
    ghost use Rattle.std.specs.Prelude.{◌≡◌, map};
    ghost use Rattle.row_values.specs.Value.{value_of};

    /// The values, as a slice.
    pub fn as_slice(&self) -> &[Value<'a>]
        ensures { map value_of result.now ≡ self.now }
    {
        if self.count > 0 {
            &self.few[..self.count]
        } else {
            self.many.as_slice()
        }
    }
}
