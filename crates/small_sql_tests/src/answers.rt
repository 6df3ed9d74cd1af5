//! What is answered to a command, as it is written down.

use crate::watched::Watched;
use core_calls::{ParameterType, Side, SqlFault};
use row_values::{Kind, Schema, Value};
use small_sql::{Answer, Bound, absent_claims, bind, claims, describe, run};
use sql_descriptions::Description;
use sql_text::Command;
use std::alloc::{AllocError, Global};
use std::sync::Arc;
use tables::{Change, PlainFault, RowList};
use test_calls::push_row;
use unit_locks::{Access, Claim};

/// The values of the markers.
const PARAMS: [Value<'static>; 3] = [Value::Number(2), Value::Text("b"), Value::Null];

/// Appends a text.
pub fn push(out: &mut Vec<u8>, text: &str) -> Option<()> {
    out.extend_from_slice(text.as_bytes()).ok()
}

fn answer(
    alloc: Global,
    command: &Command<'_>,
    left: usize,
    view: &mut Watched,
) -> Result<Answer, PlainFault> {
    let bound = bind(alloc, command, &PARAMS, view)?;
    run(alloc, &bound, left, view)
}

fn apply_all(alloc: Global, view: &mut Watched, changes: Vec<Change>) -> Result<(), AllocError> {
    for change in changes {
        view.view.apply(alloc, change)?;
    }
    Ok(())
}

/// The command is run where so many bytes of changes are left, and its changes are made. Appends its SQLCODE where it is refused, else how
/// many rows it changes or finds.
pub fn push_run(
    alloc: Global,
    command: &Command<'_>,
    left: usize,
    view: &mut Watched,
    out: &mut Vec<u8>,
) -> Option<()> {
    let text = match answer(alloc, command, left, view).ok()? {
        Answer::Refused(fault) => {
            let code = fault.code();
            format!(in alloc; "refused {code}").ok()?
        }
        Answer::Changes(changes, count) => {
            apply_all(alloc, view, changes).ok()?;
            format!(in alloc; "changes {count}").ok()?
        }
        Answer::Rows(list) => {
            let count = list.len();
            format!(in alloc; "finds {count}").ok()?
        }
    };
    push(out, &text)
}

// The places of the columns that are asked for, and each row with all of its values.
fn push_list(alloc: Global, list: &RowList, out: &mut Vec<u8>) -> Option<()> {
    push_places(alloc, list.selected(), out)?;
    for place in 0..list.len() {
        push_row(alloc, out, list.row(place))?;
    }
    Some(())
}

/// Appends the rows that a query finds, which is not refused.
pub fn push_found(
    alloc: Global,
    command: &Command<'_>,
    view: &mut Watched,
    out: &mut Vec<u8>,
) -> Option<()> {
    match answer(alloc, command, 0, view).ok()? {
        Answer::Rows(list) => push_list(alloc, &list, out),
        _ => None,
    }
}

fn claimed(
    alloc: Global,
    command: &Command<'_>,
    view: &mut Watched,
) -> Result<Vec<Claim>, PlainFault> {
    let bound = bind(alloc, command, &PARAMS, view)?;
    claims_of(alloc, &bound)
}

fn claims_of(alloc: Global, bound: &Bound<'_, '_>) -> Result<Vec<Claim>, PlainFault> {
    Ok(claims(alloc, bound)?)
}

fn push_key(alloc: Global, key: &[u8], out: &mut Vec<u8>) -> Option<()> {
    push(out, " at ")?;
    for byte in key {
        push(out, &format!(in alloc; "{byte:02X}").ok()?)?;
    }
    Some(())
}

fn push_claims_of(alloc: Global, claims: &[Claim], out: &mut Vec<u8>) -> Option<()> {
    for claim in claims {
        push(
            out,
            match claim.access() {
                Access::Read => "read ",
                Access::Write => "write ",
            },
        )?;
        out.extend_from_slice(claim.table()).ok()?;
        if let Some(key) = claim.key() {
            push_key(alloc, key, out)?;
        }
        push(out, "; ")?;
    }
    Some(())
}

/// Appends what the command claims.
pub fn push_claims(
    alloc: Global,
    command: &Command<'_>,
    view: &mut Watched,
    out: &mut Vec<u8>,
) -> Option<()> {
    push_claims_of(alloc, &claimed(alloc, command, view).ok()?, out)
}

/// Appends what the command claims where its table is not there.
pub fn push_absent_claims(alloc: Global, command: &Command<'_>, out: &mut Vec<u8>) -> Option<()> {
    push_claims_of(alloc, &absent_claims(alloc, command).ok()?, out)
}

fn schema_bound(
    alloc: Global,
    command: &Command<'_>,
    view: &mut Watched,
) -> Result<Option<Arc<Schema, Global>>, PlainFault> {
    let bound = bind(alloc, command, &PARAMS, view)?;
    schema_of(&bound)
}

fn schema_of(bound: &Bound<'_, '_>) -> Result<Option<Arc<Schema, Global>>, PlainFault> {
    Ok(bound.schema()?)
}

/// Appends how many columns the schema has that the command is bound to.
pub fn push_bound(
    alloc: Global,
    command: &Command<'_>,
    view: &mut Watched,
    out: &mut Vec<u8>,
) -> Option<()> {
    match schema_bound(alloc, command, view).ok()? {
        Some(schema) => {
            let columns = schema.columns().len();
            push(out, &format!(in alloc; "{columns} columns").ok()?)
        }
        None => push(out, "no table"),
    }
}

fn description(
    alloc: Global,
    side: Side,
    command: &Command<'_>,
    view: &mut Watched,
) -> Result<Result<Description, SqlFault>, PlainFault> {
    describe(alloc, side, command, view)
}

fn name_of(kind: Kind) -> &'static str {
    match kind {
        Kind::SmallInt => "SMALLINT",
        Kind::Integer => "INTEGER",
        Kind::BigInt => "BIGINT",
        Kind::VarChar => "VARCHAR",
        Kind::VarBinary => "VARBINARY",
    }
}

fn push_types(alloc: Global, types: &[ParameterType], out: &mut Vec<u8>) -> Option<()> {
    push(out, "parameters")?;
    for it in types {
        let (kind, limit) = (name_of(it.kind), it.limit);
        push(out, &format!(in alloc; " {kind}({limit})").ok()?)?;
    }
    Some(())
}

fn push_places(alloc: Global, places: &[u8], out: &mut Vec<u8>) -> Option<()> {
    push(out, "columns")?;
    for place in places {
        push(out, &format!(in alloc; " {place}").ok()?)?;
    }
    Some(())
}

/// Appends the places of the command's columns or the types of its parameters, or its SQLCODE where it is refused.
pub fn push_description(
    alloc: Global,
    side: Side,
    command: &Command<'_>,
    view: &mut Watched,
    out: &mut Vec<u8>,
) -> Option<()> {
    match description(alloc, side, command, view).ok()? {
        Ok(Description::Output(columns)) => push_places(alloc, columns.selected(), out),
        Ok(Description::Input(types)) => push_types(alloc, types.as_slice(), out),
        Err(fault) => {
            let code = fault.code();
            push(out, &format!(in alloc; "refused {code}").ok()?)
        }
    }
}
