//! SQLDARD of columns that are selected by their places.

ghost use Rattle.std.specs.Prelude.{◌≡◌, ◌<◌, ◌≤◌, ◌+◌, ◌++◌, ◌∷◌, OnOk, OnErr, is_some, length, map, nat_le, take, true, vec_capacity, vec_len};
ghost use Rattle.std.specs.List.{flat_map, list_all, slice_get};
ghost use Rattle.std.specs.Int.{to_be_bytes, w16};
ghost use Rattle.ddm_objects.specs.Writing.{spelled};
ghost use Rattle.ddm_objects.specs.declared.code_point.TheConstants.{SQLDARD};
ghost use Rattle.row_values.specs.Column.{column_of};
ghost use Rattle.row_values.specs.Schema.{picked};
ghost use Rattle.sqlam_replies.specs.Sqldard.{are_described, column_group, sqldard};
ghost use Rattle.tables.specs.RowList.{is_selection};

use crate::sqlda::push_column;
use ddm_objects::{close, code_point, open};
use row_values::{Column, Schema};
use std::alloc::AllocError;

fn push_selected(
    out: &mut Vec<u8>,
    unicode: bool,
    columns: &[Column],
    places: &[u8],
) -> Result<(), AllocError>
    requires names { list_all (λ c. nat_le (length c.name) 30) (map column_of columns.now) ≡ true }
    requires places { list_all (λ place. is_some (slice_get (map column_of columns.now) place)) places.now ≡ true }
    ensures ok { OnOk result (out.new.items ≡ out.old.items ++ flat_map (column_group unicode) (picked (map column_of columns.now) places.now)) }
    ensures kept { take (vec_len out.old) out.new.items ≡ out.old.items }
    ensures full { OnErr result (vec_capacity out.old < vec_len out.old + length (flat_map (column_group unicode) (picked (map column_of columns.now) places.now))) }
    ensures capacity { vec_capacity out.old ≤ vec_capacity out.new }
{
    for i in 0..places.len() {
        let place = usize::from(places[i]);
        push_column(out, unicode, &columns[place])?;
    }
    Ok(())
}

#[tactic(auto, using(crate::proofs::Sizes::spelled_size))]
fn push_description(
    out: &mut Vec<u8>,
    unicode: bool,
    columns: &[Column],
    places: &[u8],
) -> Result<(), AllocError>
    requires few { length places.now ≤ 64 }
    requires names { list_all (λ c. nat_le (length c.name) 30) (map column_of columns.now) ≡ true }
    requires places { list_all (λ place. is_some (slice_get (map column_of columns.now) place)) places.now ≡ true }
    ensures ok { OnOk result (out.new.items ≡ out.old.items ++ spelled SQLDARD (0xFF ∷ 0xFF ∷ to_be_bytes w16 (length places.now) ++ flat_map (column_group unicode) (picked (map column_of columns.now) places.now))) }
    ensures kept { take (vec_len out.old) out.new.items ≡ out.old.items }
    ensures full { OnErr result (vec_capacity out.old < vec_len out.old + length (spelled SQLDARD (0xFF ∷ 0xFF ∷ to_be_bytes w16 (length places.now) ++ flat_map (column_group unicode) (picked (map column_of columns.now) places.now)))) }
    ensures capacity { vec_capacity out.old ≤ vec_capacity out.new }
{
    let container = open(out, code_point::SQLDARD)?;
    let [n1, n2] = (places.len() as u16).to_be_bytes();
    out.extend_from_slice(&[0xFF, 0xFF, n1, n2])?;
    push_selected(out, unicode, columns, places)?;
    close(out, container)
}

/// Appends the description of columns of a schema, at most 64, by their places from 0, a place perhaps more
/// than once. Names are answered as UTF-8 with `unicode`, else in code page 500. Where memory is refused
/// nothing is appended, and that does not happen where the list has room for the description.
pub fn selected_sqldard(
    out: &mut Vec<u8>,
    unicode: bool,
    schema: &Schema,
    selected: &[u8],
) -> Result<(), AllocError>
    requires { is_selection schema.now selected.now ≡ true }
    ensures few { are_described (picked schema.now.columns selected.now) ≡ true }
    ensures ok { OnOk result (out.new.items ≡ out.old.items ++ sqldard unicode (picked schema.now.columns selected.now)) }
    ensures err { OnErr result (out.new.items ≡ out.old.items) }
    ensures full { OnErr result (vec_capacity out.old < vec_len out.old + length (sqldard unicode (picked schema.now.columns selected.now))) }
    ensures capacity { vec_capacity out.old ≤ vec_capacity out.new }
{
    let start = out.len();
    let pushed = push_description(out, unicode, schema.columns(), selected);
    if pushed.is_err() {
        out.truncate(start);
    }
    pushed
}
