//! The changes of one unit.

ghost use Rattle.std.specs.Prelude.{◌≡◌, ◌++◌, IfOk, OnErr, OnOk, map};
ghost use Rattle.tables.specs.ChangeView.{change_of};

use row_values::Schema;
use std::alloc::{AllocError, Global};
use std::sync::Arc;
use tables::{Action, Change};
use unit_changes::UnitChanges;

/// Adds changes of one table, whose schema this is, at the end; a table that is created brings its own.
/// Out of memory, none is added; other changes without a schema are refused likewise.
pub(crate) fn add(
    changes: &mut UnitChanges,
    alloc: Global,
    schema: Option<&Arc<Schema, Global>>,
    more: Vec<Change>,
) -> Result<(), AllocError>
    ensures ok { OnOk result (changes.new ≡ changes.old ++ map change_of more.items) }
    ensures err { OnErr result (changes.new ≡ changes.old) }
{
    match schema {
        Some(schema) => changes.add(alloc, schema, more),
        None if more.is_empty() => Ok(()),
        None => {
            let schema = own_schema(alloc, more.as_slice())?;
            changes.add(alloc, &schema, more)
        }
    }
}

// The schema that a table is created with.
fn own_schema(alloc: Global, changes: &[Change]) -> Result<Arc<Schema, Global>, AllocError> {
    let [first, ..] = changes else {
        return Err(AllocError);
    };
    match &first.action {
        Action::CreateTable { schema, .. } => Ok(Arc::new(alloc, schema.copy(alloc)?)?),
        Action::Put { .. } | Action::Remove { .. } => Err(AllocError),
    }
}

/// The changes of a unit that begins with these.
pub(crate) fn first(
    alloc: Global,
    schema: Option<&Arc<Schema, Global>>,
    more: Vec<Change>,
) -> Result<UnitChanges, AllocError>
    ensures { IfOk result (λ changes. changes ≡ map change_of more.items) }
{
    let mut changes = UnitChanges::new(alloc);
    add(&mut changes, alloc, schema, more)?;
    Ok(changes)
}
