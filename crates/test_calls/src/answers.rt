//! Answers as they are written down.

use core_calls::{Answer, SqlFault};
use row_values::{RowRef, Value};
use std::alloc::{AllocError, Global};
use tables::RowList;
use xa_calls::Xid;

/// The longest text that is told by its letters.
const LONGEST_SHOWN: usize = 40;

/// Appends a text.
pub fn push_text(out: &mut Vec<u8>, text: &str) -> Option<()> {
    out.extend_from_slice(text.as_bytes()).ok()
}

/// Appends bytes, each as two digits.
pub fn push_bytes(alloc: Global, out: &mut Vec<u8>, bytes: &[u8]) -> Option<()> {
    for byte in bytes {
        push_text(out, &format!(in alloc; "{byte:02X}").ok()?)?;
    }
    Some(())
}

// A long text is told by its length.
fn said_text(alloc: Global, text: &str) -> Result<String, AllocError> {
    let length = text.len();
    if length > LONGEST_SHOWN {
        format!(in alloc; "{length} letters")
    } else {
        format!(in alloc; "'{text}'")
    }
}

fn push_value(alloc: Global, out: &mut Vec<u8>, value: Value<'_>) -> Option<()> {
    let text = match value {
        Value::Null => String::from_str(alloc, "NULL"),
        Value::Number(number) => format!(in alloc; "{number}"),
        Value::Text(text) => said_text(alloc, text),
        Value::Bytes(bytes) => return push_bytes(alloc, out, bytes),
    };
    push_text(out, &text.ok()?)
}

/// Appends the values of a row, between brackets.
pub fn push_row(alloc: Global, out: &mut Vec<u8>, row: RowRef<'_>) -> Option<()> {
    let mut is_first = true;
    for value in row.values() {
        push_text(out, if is_first { " (" } else { ", " })?;
        push_value(alloc, out, value)?;
        is_first = false;
    }
    push_text(out, ")")
}

// The places of the columns that are selected, and each row.
fn push_rows(alloc: Global, out: &mut Vec<u8>, list: &RowList) -> Option<()> {
    push_text(out, "columns")?;
    for place in list.selected() {
        push_text(out, &format!(in alloc; " {place}").ok()?)?;
    }
    push_each_row(alloc, out, list)
}

fn push_each_row(alloc: Global, out: &mut Vec<u8>, list: &RowList) -> Option<()> {
    push_text(
        out,
        if list.is_empty() {
            ", no row"
        } else {
            ", rows"
        },
    )?;
    for i in 0..list.len() {
        push_row(alloc, out, list.row(i))?;
    }
    Some(())
}

fn push_in_doubt(alloc: Global, out: &mut Vec<u8>, xids: &[Xid]) -> Option<()> {
    push_text(
        out,
        if xids.is_empty() {
            "none in doubt"
        } else {
            "in doubt"
        },
    )?;
    for xid in xids {
        push_text(out, " ")?;
        push_bytes(alloc, out, xid.as_bytes())?;
    }
    Some(())
}

fn push_fault(alloc: Global, out: &mut Vec<u8>, fault: &SqlFault) -> Option<()> {
    let code = fault.code();
    let state = str::from_utf8(fault.state()).ok()?;
    push_text(out, &format!(in alloc; "refused {code} {state}").ok()?)
}

// What stands for an answer that has nothing in it.
fn plain(answer: &Answer) -> &'static str {
    match answer {
        Answer::Done => "done",
        Answer::InGlobal => "in a global unit",
        Answer::NoMemory => "no memory",
        Answer::DeviceFailed => "the device failed",
        Answer::Closed => "closed",
        _ => "",
    }
}

fn said(alloc: Global, answer: &Answer) -> Result<String, AllocError> {
    match answer {
        Answer::Count(count) => format!(in alloc; "count {count}"),
        Answer::Xa(code) => {
            let number = code.number();
            format!(in alloc; "code {number}")
        }
        Answer::Output(columns) => {
            let count = columns.selected().len();
            format!(in alloc; "{count} columns")
        }
        Answer::Input(types) => {
            let count = types.as_slice().len();
            format!(in alloc; "{count} parameters")
        }
        Answer::Full { need, room } => format!(in alloc; "full, {need} into {room}"),
        _ => String::from_str(alloc, plain(answer)),
    }
}

/// Appends what is answered.
pub fn push_answer(alloc: Global, out: &mut Vec<u8>, answer: &Answer) -> Option<()> {
    match answer {
        Answer::Rows(list) => push_rows(alloc, out, list),
        Answer::InDoubt(xids) => push_in_doubt(alloc, out, xids.as_slice()),
        Answer::Refused(refusal) => push_fault(alloc, out, &refusal.fault()),
        _ => push_text(out, &said(alloc, answer).ok()?),
    }
}
