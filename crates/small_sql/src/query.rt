//! Answers queries.

ghost use Rattle.std.specs.Prelude.{◌≡◌, [], IfErr, IfOk, IsTrue, Some, false, true};
ghost use Rattle.std.specs.Arc.{arc_value};
ghost use Rattle.tables.specs.RowList.{is_selection};
ghost use Rattle.tables.specs.Tables.{schema_of};
ghost use Rattle.tables.specs.View.{is_store};
ghost use Rattle.sql_semantics.specs.Frame.{rows_covered};
ghost use Rattle.sql_semantics.specs.Meaning.{Rows};
ghost use Rattle.small_sql.specs.Answer.{answer_of};
ghost use Rattle.small_sql.specs.Scope.{scope_of};
ghost use Rattle.small_sql.specs.Task.{matching};

use crate::answer::Answer;
use crate::read::{no_memory, rows_found};
use crate::scope::Scope;
use row_values::Schema;
use sql_predicates::Filter;
use std::alloc::{AllocError, Global};
use std::sync::Arc;
use tables::{RowList, TableView};

// A list of the schema that has no rows yet, of which these columns are asked for.
fn no_rows(
    alloc: Global,
    schema: &Arc<Schema, Global>,
    places: &[u8],
) -> Result<RowList, AllocError>
    requires { is_selection (arc_value schema.now) places.now ≡ true }
    ensures { IfOk result (λ list. list ≡ record { schema = arc_value schema.now; selected = places.now; rows = [] }) }
{
    let places = Vec::from_slice(alloc, places)?;
    Ok(RowList::new(alloc, Arc::try_clone(schema)?, places))
}

/// What a SELECT is answered: the rows in its scope that its WHERE matches, in the order of their keys,
/// with the places of the columns that it asks for.
pub(crate) fn select<V: TableView>(
    alloc: Global,
    table: &str,
    schema: &Arc<Schema, Global>,
    scope: &Scope,
    places: &[u8],
    filter: &Filter,
    view: &mut V,
) -> Result<Answer, V::Fault>
    requires selects { is_selection (arc_value schema.now) places.now ≡ true }
    requires schema { IsTrue V.is_faithful → schema_of (V.store view.old) table.now ≡ Some (arc_value schema.now) }
    requires good { IsTrue V.is_faithful → is_store (V.store view.old) ≡ true }
    ensures answer { IfOk result (λ answer. IsTrue V.is_faithful → answer_of answer ≡ Rows (record { schema = arc_value schema.now; selected = places.now; rows = matching filter.now (arc_value schema.now) (rows_covered (scope_of scope.now) table.now (V.store view.old)) })) }
    ensures fault { IfErr result (λ fault. IsTrue V.is_faithful → V.tells_damage fault ≡ false) }
    ensures store { V.store view.new ≡ V.store view.old }
{
    let Ok(list) = no_rows(alloc, schema, places) else {
        return Err(no_memory::<V>());
    };
    let found = rows_found(alloc, view, table, scope, filter, list)?;
    Ok(Answer::Rows(found))
}
