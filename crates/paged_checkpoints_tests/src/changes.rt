//! Changes of tables that have `A`, a SMALLINT that is the key, and `B`, bytes that may be NULL.

use row_values::{Column, Kind, Schema, is_name};
use std::alloc::{AllocError, Global};
use std::test::Fail;
use tables::Change;

/// Keys that rise by one: the first key, how many there are, and how many bytes `B` has in each row.
pub type Run = (i16, u16, u16);

/// What is done to the table of a name.
#[derive(Clone, Copy)]
pub enum Step {
    Create(&'static str),
    Put(&'static str, Run),
    Remove(&'static str, Run),
}

fn column(alloc: Global, name: &str, kind: Kind, length: u16) -> Result<Column, AllocError> {
    Ok(Column {
        name: String::from_str(alloc, name)?,
        kind,
        is_nullable: length > 0,
        length,
    })
}

fn schema(alloc: Global) -> Result<Schema, Fail> {
    let mut columns = Vec::new(alloc);
    columns.push(column(alloc, "A", Kind::SmallInt, 0)?)?;
    columns.push(column(alloc, "B", Kind::VarBinary, 2_000)?)?;
    Ok(Schema::new(columns, [0u8].to_vec(alloc)?)?)
}

// A key, which is the front of its row.
fn key_of(alloc: Global, key: i16) -> Result<Vec<u8>, AllocError> {
    let [a, b] = key.to_be_bytes();
    [0, a, b].to_vec(alloc)
}

fn row_of(alloc: Global, key: i16, length: u16) -> Result<Vec<u8>, AllocError> {
    let [a, b] = key.to_be_bytes();
    let [c, d] = length.to_be_bytes();
    let mut row = [0, a, b, 0, c, d].to_vec(alloc)?;
    let bytes = vec![in alloc; 7u8; usize::from(length)]?;
    row.extend_from_slice(&bytes)?;
    Ok(row)
}

fn push_put(
    changes: &mut Vec<Change>,
    alloc: Global,
    name: &str,
    row: Vec<u8>,
) -> Result<(), Fail> {
    if !is_name(name.as_bytes()) || row.len() > 4_000 {
        return Err("no such row".into());
    }
    changes.push(Change::put(String::from_str(alloc, name)?, row))?;
    Ok(())
}

fn push_remove(
    changes: &mut Vec<Change>,
    alloc: Global,
    name: &str,
    key: Vec<u8>,
) -> Result<(), Fail> {
    if !is_name(name.as_bytes()) || key.len() > 8_012 {
        return Err("no such key".into());
    }
    changes.push(Change::remove(String::from_str(alloc, name)?, key))?;
    Ok(())
}

fn creation(alloc: Global, name: &str) -> Result<Change, Fail> {
    if !is_name(name.as_bytes()) {
        return Err("no such name".into());
    }
    let schema = schema(alloc)?;
    Ok(Change::create(String::from_str(alloc, name)?, schema))
}

/// The changes of a step.
pub fn changes_of(alloc: Global, step: Step) -> Result<Vec<Change>, Fail> {
    let mut changes = Vec::new(alloc);
    let (name, (first, count, length), is_put) = match step {
        Step::Create(name) => {
            changes.push(creation(alloc, name)?)?;
            return Ok(changes);
        }
        Step::Put(name, run) => (name, run, true),
        Step::Remove(name, run) => (name, run, false),
    };
    let mut key = first;
    for _ in 0..count {
        if is_put {
            push_put(&mut changes, alloc, name, row_of(alloc, key, length)?)?;
        } else {
            push_remove(&mut changes, alloc, name, key_of(alloc, key)?)?;
        }
        key = key.wrapping_add(1);
    }
    Ok(changes)
}
