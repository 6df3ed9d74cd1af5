//! Copies of what names columns.

ghost use Rattle.std.specs.Prelude.{◌≡◌, IfOk};

use crate::value::copy_sum;
use sql_lex::Part;
use sql_text::{Assignment, Columns, Definition, KeyColumn};
use sqlite_items::Items;
use std::alloc::{AllocError, Global};

fn copy_names<'c>(alloc: Global, names: &[Part<'_>]) -> Result<Items<Part<'c>>, AllocError>
    ensures { IfOk result (λ copies. copies ≡ names.now) }
{
    let mut copies = Items::new(alloc);
    for name in names {
        copies.push(name.copy(alloc)?)?;
    }
    Ok(copies)
}

/// The same columns.
pub(crate) fn copy_columns<'c>(
    alloc: Global,
    columns: &Columns<'_>,
) -> Result<Columns<'c>, AllocError>
    ensures { IfOk result (λ copy. copy ≡ columns.now) }
{
    match columns {
        Columns::All => Ok(Columns::All),
        Columns::Named(names) => Ok(Columns::Named(copy_names(alloc, names.as_slice())?)),
    }
}

fn copy_assignment<'c>(
    alloc: Global,
    assignment: &Assignment<'_>,
) -> Result<Assignment<'c>, AllocError>
    ensures { IfOk result (λ copy. copy ≡ assignment.now) }
{
    Ok(Assignment {
        column: assignment.column.copy(alloc)?,
        sum: copy_sum(alloc, &assignment.sum)?,
    })
}

/// The same assignments.
pub(crate) fn copy_assignments<'c>(
    alloc: Global,
    assignments: &[Assignment<'_>],
) -> Result<Items<Assignment<'c>>, AllocError>
    ensures { IfOk result (λ copies. copies ≡ assignments.now) }
{
    let mut copies = Items::new(alloc);
    for assignment in assignments {
        copies.push(copy_assignment(alloc, assignment)?)?;
    }
    Ok(copies)
}

fn copy_definition<'c>(
    alloc: Global,
    definition: &Definition<'_>,
) -> Result<Definition<'c>, AllocError>
    ensures { IfOk result (λ copy. copy ≡ definition.now) }
{
    Ok(Definition {
        name: definition.name.copy(alloc)?,
        column_type: definition.column_type,
        nullable: definition.nullable,
    })
}

/// The same columns of a table to be made.
pub(crate) fn copy_definitions<'c>(
    alloc: Global,
    definitions: &[Definition<'_>],
) -> Result<Items<Definition<'c>>, AllocError>
    ensures { IfOk result (λ copies. copies ≡ definitions.now) }
{
    let mut copies = Items::new(alloc);
    for definition in definitions {
        copies.push(copy_definition(alloc, definition)?)?;
    }
    Ok(copies)
}

/// The same columns of a key.
pub(crate) fn copy_key<'c>(
    alloc: Global,
    key: &[KeyColumn<'_>],
) -> Result<Items<KeyColumn<'c>>, AllocError>
    ensures { IfOk result (λ copies. copies ≡ key.now) }
{
    let mut copies = Items::new(alloc);
    for column in key {
        let name = column.name.copy(alloc)?;
        copies.push(KeyColumn { name })?;
    }
    Ok(copies)
}
