//! Whether the rows of a page are those of a schema, judged where they lie: no memory is taken.

ghost use Rattle.std.specs.Prelude.{◌≡◌, IfSome, IsTrue, option_map};
ghost use Rattle.std.specs.List.{AllByRecursion};
ghost use Rattle.drda_words.specs.Bytes.{AreBytes};
ghost use Rattle.row_values.specs.RowView.{row_in, schema_in};
ghost use Rattle.row_pages.specs.Judging.{comes_before, do_rise as may_rise, is_behind as comes_behind};

use crate::kept::KeptPage;
use row_values::{RowRef, Schema};
use std::cmp::Ordering;

/// Whether the rows of the page are rows of the schema whose keys rise.
pub(crate) fn do_rise(schema: &Schema, page: &KeptPage) -> bool
    ensures rise { result ≡ may_rise schema.now page.now.rows }
    ensures bytes { IsTrue result → AllByRecursion AreBytes page.now.rows }
{
    let mut last: Option<RowRef<'_>> = None;
    for i in 0..page.len() {
        let bytes = page.row(i);
        are_bytes(bytes);
        let Ok(row) = RowRef::parse(schema, bytes) else {
            return false;
        };
        if !is_behind(&last, &row) {
            return false;
        }
        last = Some(row);
    }
    true
}

// What a slice of bytes is, for clauses.
#[inline(always)]
fn are_bytes(bytes: &[u8])
    ensures { AreBytes bytes.now }
{}

/// Whether a row comes behind the last one, where there is one.
#[inline(always)]
pub fn is_behind(last: &Option<RowRef<'_>>, row: &RowRef<'_>) -> bool
    requires { IfSome last.now (λ last. schema_in last ≡ schema_in row.now) }
    ensures { result ≡ comes_behind (schema_in row.now) (option_map row_in last.now) (row_in row.now) }
{
    match last {
        Some(last) => comes_before(last, row),
        None => true,
    }
}

// Whether the first of two rows of one schema has the key that comes first.
#[inline(always)]
fn comes_before(first: &RowRef<'_>, second: &RowRef<'_>) -> bool
    requires { schema_in first.now ≡ schema_in second.now }
    ensures { result ≡ comes_before (schema_in second.now) (row_in first.now) (row_in second.now) }
{
    for place in second.schema().key() {
        let place = usize::from(*place);
        match first.column(place).order(&second.column(place)) {
            Ordering::Less => return true,
            Ordering::Greater => return false,
            Ordering::Equal => {}
        }
    }
    false
}

/// Whether two schemas are the same one.
pub(crate) fn are_same(first: &Schema, second: &Schema) -> bool
    ensures { IsTrue result → first.now ≡ second.now }
{
    first.columns() == second.columns() && first.key() == second.key()
}
