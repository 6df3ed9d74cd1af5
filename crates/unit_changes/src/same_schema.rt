//! Whether two schemas are the same.

ghost use Rattle.std.specs.Prelude.{◌≡◌, map, true};
ghost use Rattle.row_values.specs.Column.{column_of};

use row_values::{Column, Schema};

/// Whether the schemas are the same.
pub(crate) fn are_same(a: &Schema, b: &Schema) -> bool
    ensures { result ≡ true → a.now ≡ b.now }
{
    a.key() == b.key() && have_same_columns(a.columns(), b.columns())
}

fn have_same_columns(a: &[Column], b: &[Column]) -> bool
    ensures { result ≡ true → map column_of a.now ≡ map column_of b.now }
{
    match (a, b) {
        ([], []) => true,
        ([first, rest @ ..], [other, others @ ..]) => {
            is_same_column(first, other) && have_same_columns(rest, others)
        }
        _ => false,
    }
}

fn is_same_column(a: &Column, b: &Column) -> bool
    ensures { result ≡ true → column_of a.now ≡ column_of b.now }
{
    a.name.as_bytes() == b.name.as_bytes()
        && a.kind == b.kind
        && a.is_nullable == b.is_nullable
        && a.length == b.length
}
