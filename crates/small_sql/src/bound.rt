//! Statements that are bound to their tables.

ghost use Rattle.std.specs.Prelude.{◌≡◌, ◌<◌, ◌^◌, IfOk, length, option_map, true};
ghost use Rattle.std.specs.Arc.{arc_value};
ghost use Rattle.std.specs.String.{string_bytes};
ghost use Rattle.small_sql.specs.Task.{selects};

use crate::scope::Scope;
use crate::task::Task;
use row_values::Schema;
use sql_text::Command;
use std::alloc::{AllocError, Global};
use std::sync::Arc;
use unit_locks::Access;

/// A statement that is bound to the schema of its table, or to there being no such table: its names
/// and literals are resolved once, and what it claims and what it is answered come from this alone.
/// Contracts see it by `IsBound`, which says of which statement with which values it is made, and by
/// `IsOver`, which says of a store that its table has the schema that it is bound to.
#[derive(Drop)]
pub struct Bound<'a, 't> {
    pub(crate) command: &'a Command<'t>,
    /// Its name in capitals.
    pub(crate) table: String,
    pub(crate) schema: Option<Arc<Schema, Global>>,
    pub(crate) access: Access,
    pub(crate) scope: Scope,
    pub(crate) task: Task,
    ghost named: { length (string_bytes table) < 2 ^ 8 },
    ghost selects: { selects (option_map arc_value schema) task ≡ true },
}

impl Bound<'_, '_> {
    ghost use Rattle.small_sql.specs.Bound.{bound_schema};

    /// The schema that it is bound to, shared, or none where it is bound to there being no table.
    pub fn schema(&self) -> Result<Option<Arc<Schema, Global>>, AllocError>
        ensures { IfOk result (λ schema. option_map arc_value schema ≡ bound_schema self.now) }
    {
        match &self.schema {
            Some(schema) => Ok(Some(Arc::try_clone(schema)?)),
            None => Ok(None),
        }
    }
}
