//! What statements are described by, and what refusals are told as.

use core_calls::{OutputColumns, ParameterType, ParameterTypes, Refusal, SqlFault};
use fdoca::are_places;
use row_values::Kind;
use std::alloc::{AllocError, Global};
use std::sync::Arc;
use test_rows::schema_of;

// The column `A INTEGER`, which is the key, so often.
fn selected(alloc: Global, places: Vec<u8>) -> Option<OutputColumns> {
    let schema = schema_of(alloc, &["A,INTEGER,not,0", "0"])??;
    if places.len() > 64 || !are_places(&schema, &places) {
        return None;
    }
    Some(OutputColumns::new(Arc::new(alloc, schema).ok()?, places))
}

/// Tells the places of columns of a schema, and how many columns it has.
pub fn tell_selected(alloc: Global, places: Vec<u8>, told: &mut String) -> Result<(), AllocError> {
    match selected(alloc, places) {
        Some(columns) => {
            let (places, count) = (columns.selected(), columns.schema().columns().len());
            write!(told, "{places:?} of {count}")
        }
        None => told.push_str("no such column"),
    }
}

const TYPES: [ParameterType; 2] = [
    ParameterType {
        kind: Kind::BigInt,
        limit: 0,
    },
    ParameterType {
        kind: Kind::VarChar,
        limit: 600,
    },
];

/// Tells whether the types of parameters are those that were given.
pub fn tell_types(alloc: Global, told: &mut String) -> Result<(), AllocError> {
    let described = ParameterTypes::new(TYPES.to_vec(alloc)?);
    let is_same = described.as_slice() == TYPES.as_slice();
    write!(told, "the same {is_same}")
}

const REFUSALS: [Refusal; 4] = [
    Refusal::Unfit(SqlFault::NotPrepared),
    Refusal::Clashes,
    Refusal::TooManyClaims,
    Refusal::Meaning(SqlFault::KeyExists),
];

/// Tells the fault of each way to refuse.
pub fn tell_refusals(told: &mut String) -> Result<(), AllocError> {
    for refusal in REFUSALS {
        let fault = refusal.fault();
        write!(told, "{fault:?}; ")?;
    }
    Ok(())
}
