//! SQLDARD: the description of columns or of parameters.

ghost use Rattle.std.specs.Prelude.{◌≡◌, ◌<◌, ◌≤◌, ◌+◌, ◌^◌, ◌++◌, OnOk, OnErr, length, map, nat_le, take, true, vec_len, vec_capacity};
ghost use Rattle.std.specs.List.{flat_map, list_all};
ghost use Rattle.ddm_objects.specs.Writing.{spelled};
ghost use Rattle.fdoca.specs.Writing.{length_for};
ghost use Rattle.row_values.specs.Column.{column_of};
ghost use Rattle.sqlam_replies.specs.Sqldard.{are_described, before_name, behind_name, ccsid, column_group, sql_type, sqlda, sqldard, type_number};

use crate::names::push_name;
use ddm_objects::{close, code_point, open};
use row_values::{Column, Kind};
use std::alloc::AllocError;

/// The most columns or parameters that are described at once.
pub const MAX_DESCRIBED: usize = 128;

/// The longest name of a column.
const MAX_NAME: usize = 30;

/// The CCSID of UTF-8.
const UTF_8: u16 = 1208;

/// Whether these columns can be described: at most `MAX_DESCRIBED`, with names of at most 30 bytes.
pub fn are_described(columns: &[Column]) -> bool
    ensures { result ≡ are_described (map column_of columns.now) }
{
    columns.len() <= MAX_DESCRIBED && have_short_names(columns)
}

fn has_short_name(column: &Column) -> bool
    ensures { result ≡ nat_le (length (column_of column.now).name) 30 }
{
    column.name.len() <= MAX_NAME
}

fn have_short_names(columns: &[Column]) -> bool
    ensures { result ≡ list_all (λ column. nat_le (length (column_of column).name) 30) columns.now }
{
    columns.iter().all(|column| has_short_name(column))
}

fn type_number(kind: Kind) -> u16
    ensures exact { result ≡ type_number kind }
    ensures small { result ≤ 500 }
{
    match kind {
        Kind::SmallInt => 500,
        Kind::Integer => 496,
        Kind::BigInt => 492,
        Kind::VarChar | Kind::VarBinary => 448,
    }
}

fn sql_type(kind: Kind, is_nullable: bool) -> u16
    ensures { result ≡ sql_type kind is_nullable }
{
    let number = type_number(kind);
    if is_nullable { number + 1 } else { number }
}

fn ccsid(kind: Kind) -> u16
    ensures { result ≡ ccsid kind }
{
    match kind {
        Kind::VarChar => UTF_8,
        _ => 0,
    }
}

fn length_for(kind: Kind, limit: u16) -> u16
    ensures { result ≡ length_for kind limit }
{
    match kind {
        Kind::SmallInt => 2,
        Kind::Integer => 4,
        Kind::BigInt => 8,
        Kind::VarChar | Kind::VarBinary => limit,
    }
}

fn before_name(kind: Kind, is_nullable: bool, limit: u16, name_length: u16) -> [u8; 21]
    ensures { result ≡ before_name kind is_nullable limit name_length }
{
    let [l1, l2, l3, l4, l5, l6, l7, l8] = u64::from(length_for(kind, limit)).to_be_bytes();
    let [t1, t2] = sql_type(kind, is_nullable).to_be_bytes();
    let [c1, c2] = ccsid(kind).to_be_bytes();
    let [n1, n2] = name_length.to_be_bytes();
    [
        0, 0, 0, 0, l1, l2, l3, l4, l5, l6, l7, l8, t1, t2, c1, c2, 0, 0, 0, n1, n2,
    ]
}

/// Stands behind a name.
const BEHIND_NAME: [u8; 12] = [0, 0, 0, 0, 0, 0, 0, 0, 0, 0, 0xFF, 0xFF];

pub(crate) fn push_column(
    out: &mut Vec<u8>,
    unicode: bool,
    column: &Column,
) -> Result<(), AllocError>
    requires { nat_le (length (column_of column.now).name) 30 ≡ true }
    ensures ok { OnOk result (out.new.items ≡ out.old.items ++ column_group unicode (column_of column.now)) }
    ensures kept { take (vec_len out.old) out.new.items ≡ out.old.items }
    ensures full { OnErr result (vec_capacity out.old < vec_len out.old + length (column_group unicode (column_of column.now))) }
    ensures capacity { vec_capacity out.old ≤ vec_capacity out.new }
{
    let name = column.name.as_bytes();
    let before = before_name(
        column.kind,
        column.is_nullable,
        column.length,
        name.len() as u16,
    );
    out.extend_from_slice(&before)?;
    push_name(out, unicode, name)?;
    out.extend_from_slice(&BEHIND_NAME)
}

fn push_columns(out: &mut Vec<u8>, unicode: bool, columns: &[Column]) -> Result<(), AllocError>
    requires { list_all (λ c. nat_le (length c.name) 30) (map column_of columns.now) ≡ true }
    ensures ok { OnOk result (out.new.items ≡ out.old.items ++ flat_map (column_group unicode) (map column_of columns.now)) }
    ensures kept { take (vec_len out.old) out.new.items ≡ out.old.items }
    ensures full { OnErr result (vec_capacity out.old < vec_len out.old + length (flat_map (column_group unicode) (map column_of columns.now))) }
    ensures capacity { vec_capacity out.old ≤ vec_capacity out.new }
{
    for column in columns {
        push_column(out, unicode, column)?;
    }
    Ok(())
}

#[tactic(auto, using(crate::proofs::Sizes::spelled_size))]
fn push_sqldard(out: &mut Vec<u8>, unicode: bool, columns: &[Column]) -> Result<(), AllocError>
    requires { are_described (map column_of columns.now) ≡ true }
    ensures ok { OnOk result (out.new.items ≡ out.old.items ++ sqldard unicode (map column_of columns.now)) }
    ensures kept { take (vec_len out.old) out.new.items ≡ out.old.items }
    ensures full { OnErr result (vec_capacity out.old < vec_len out.old + length (sqldard unicode (map column_of columns.now))) }
    ensures capacity { vec_capacity out.old ≤ vec_capacity out.new }
{
    let container = open(out, code_point::SQLDARD)?;
    let [n1, n2] = (columns.len() as u16).to_be_bytes();
    out.extend_from_slice(&[0xFF, 0xFF, n1, n2])?;
    push_columns(out, unicode, columns)?;
    close(out, container)
}

/// Appends the description of columns, or of parameters, which are columns that take NULL and have no
/// name. Names are answered as UTF-8 with `unicode`, else in code page 500. Where memory is refused
/// nothing is appended, and that does not happen where the list has room for the description.
pub fn sqldard(out: &mut Vec<u8>, unicode: bool, columns: &[Column]) -> Result<(), AllocError>
    requires { are_described (map column_of columns.now) ≡ true }
    ensures ok { OnOk result (out.new.items ≡ out.old.items ++ sqldard unicode (map column_of columns.now)) }
    ensures err { OnErr result (out.new.items ≡ out.old.items) }
    ensures full { OnErr result (vec_capacity out.old < vec_len out.old + length (sqldard unicode (map column_of columns.now))) }
    ensures capacity { vec_capacity out.old ≤ vec_capacity out.new }
{
    let start = out.len();
    let pushed = push_sqldard(out, unicode, columns);
    if pushed.is_err() {
        out.truncate(start);
    }
    pushed
}
