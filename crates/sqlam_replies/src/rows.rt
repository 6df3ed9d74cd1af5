//! Rows of an answer, and how many a block takes.

ghost use Rattle.std.specs.Prelude.{◌≡◌, ◌⊎◌, ◌<◌, ◌≤◌, ◌+◌, ◌++◌, OnOk, OnErr, IfSome, length, take, vec_capacity, vec_len};
ghost use Rattle.std.specs.List.{slice_get};
ghost use Rattle.sqlam_replies.specs.Rows.{IsBlock, answered, qrydsc, qrydta, rows_text};

use ddm_objects::{close, code_point, open};
use fdoca::{write_descriptor, write_row};
use std::alloc::AllocError;
use tables::RowList;

fn row_length(rows: &RowList, i: usize) -> usize
    requires { i < length rows.now.rows }
    ensures { IfSome (slice_get rows.now.rows i) (λ row. result ≡ length (answered rows.now row)) }
{
    fdoca::row_length(&rows.row(i), rows.selected())
}

fn at_least_one(count: usize) -> usize
    ensures some { 0 < result }
    ensures least { count ≤ result }
    ensures either { (result ≤ 1) ⊎ (result ≡ count) }
{
    if count == 0 { 1 } else { count }
}

/// How many of the rows from a place on a block takes: the longest list of whole rows whose bytes in
/// QRYDTA are at most `size`, and at least one where any remains.
pub fn block(rows: &RowList, from: usize, size: usize) -> usize
    ensures { IsBlock rows.now from size result }
{
    let mut room = size;
    for i in from..rows.len() {
        let length = row_length(rows, i);
        if length > room {
            return at_least_one(i - from);
        }
        room -= length;
    }
    rows.len().saturating_sub(from)
}

#[tactic(auto, using(crate::proofs::Sizes::spelled_size))]
fn push_descriptor(out: &mut Vec<u8>, rows: &RowList) -> Result<(), AllocError>
    ensures ok { OnOk result (out.new.items ≡ out.old.items ++ qrydsc rows.now) }
    ensures kept { take (vec_len out.old) out.new.items ≡ out.old.items }
    ensures full { OnErr result (vec_capacity out.old < vec_len out.old + length (qrydsc rows.now)) }
    ensures capacity { vec_capacity out.old ≤ vec_capacity out.new }
{
    let container = open(out, code_point::QRYDSC)?;
    write_descriptor(out, rows.schema(), rows.selected())?;
    close(out, container)
}

/// Appends QRYDSC, the description of the rows. Where memory is refused nothing is appended, and that
/// does not happen where the list has room for the description.
pub fn qrydsc(out: &mut Vec<u8>, rows: &RowList) -> Result<(), AllocError>
    ensures ok { OnOk result (out.new.items ≡ out.old.items ++ qrydsc rows.now) }
    ensures err { OnErr result (out.new.items ≡ out.old.items) }
    ensures full { OnErr result (vec_capacity out.old < vec_len out.old + length (qrydsc rows.now)) }
    ensures capacity { vec_capacity out.old ≤ vec_capacity out.new }
{
    let start = out.len();
    let pushed = push_descriptor(out, rows);
    if pushed.is_err() {
        out.truncate(start);
    }
    pushed
}

fn push_rows(out: &mut Vec<u8>, rows: &RowList, from: usize, count: usize) -> Result<(), AllocError>
    requires { from + count ≤ length rows.now.rows }
    ensures ok { OnOk result (out.new.items ≡ out.old.items ++ rows_text rows.now from count) }
    ensures kept { take (vec_len out.old) out.new.items ≡ out.old.items }
    ensures full { OnErr result (vec_capacity out.old < vec_len out.old + length (rows_text rows.now from count)) }
    ensures capacity { vec_capacity out.old ≤ vec_capacity out.new }
{
    let end = rows.len().min(from.saturating_add(count));
    for i in from..end {
        write_row(out, &rows.row(i), rows.selected())?;
    }
    Ok(())
}

#[tactic(auto, using(crate::proofs::Sizes::spelled_size))]
fn push_qrydta(
    out: &mut Vec<u8>,
    rows: &RowList,
    from: usize,
    count: usize,
) -> Result<(), AllocError>
    requires { from + count ≤ length rows.now.rows }
    ensures ok { OnOk result (out.new.items ≡ out.old.items ++ qrydta rows.now from count) }
    ensures kept { take (vec_len out.old) out.new.items ≡ out.old.items }
    ensures full { OnErr result (vec_capacity out.old < vec_len out.old + length (qrydta rows.now from count)) }
    ensures capacity { vec_capacity out.old ≤ vec_capacity out.new }
{
    let container = open(out, code_point::QRYDTA)?;
    push_rows(out, rows, from, count)?;
    close(out, container)
}

/// Appends QRYDTA with so many rows from a place on. Where memory is refused nothing is appended, and
/// that does not happen where the list has room for them.
pub fn qrydta(
    out: &mut Vec<u8>,
    rows: &RowList,
    from: usize,
    count: usize,
) -> Result<(), AllocError>
    requires { from + count ≤ length rows.now.rows }
    ensures ok { OnOk result (out.new.items ≡ out.old.items ++ qrydta rows.now from count) }
    ensures err { OnErr result (out.new.items ≡ out.old.items) }
    ensures full { OnErr result (vec_capacity out.old < vec_len out.old + length (qrydta rows.now from count)) }
    ensures capacity { vec_capacity out.old ≤ vec_capacity out.new }
{
    let start = out.len();
    let pushed = push_qrydta(out, rows, from, count);
    if pushed.is_err() {
        out.truncate(start);
    }
    pushed
}
