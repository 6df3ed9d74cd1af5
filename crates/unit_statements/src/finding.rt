//! What questions come to over what their unit sees.

ghost use Rattle.std.specs.Prelude.{◌≡◌, [], IfOk, IsTrue, List, None, false, map, true};
ghost use Rattle.row_values.specs.Value.{Value as SqlValue, value_of};
ghost use Rattle.sql_text.specs.declared.tree.Command.{Command as SqlCommand};
ghost use Rattle.tables.specs.Applied.{apply_all};
ghost use Rattle.tables.specs.Tables.{schema_of};
ghost use Rattle.tables.specs.View.{is_store};
ghost use Rattle.sql_semantics.specs.Describe.{described};
ghost use Rattle.sql_semantics.specs.Frame.{claims_in};
ghost use Rattle.sql_semantics.specs.Scope.{table_name};
ghost use Rattle.small_sql.specs.Bound.{IsBound, IsOver};
ghost use Rattle.ahead_view.specs.Source.{LeavesReader, MayRead};
ghost use Rattle.core_model.specs.Asked.{claims_of, described_claims, describing, is_create, told, unfit};
ghost use Rattle.core_model.specs.Units.{clashes, left_of, others, unit_of};
ghost use Rattle.unit_table.specs.Owner.{plain_owner};
ghost use Rattle.paged_tables.specs.PagedTables.{store_in};
ghost use Rattle.unit_statements.specs.Found.{Finds, FindsIn, FindsOver};
ghost use Rattle.unit_statements.specs.Given.{IsGiven};
ghost use Rattle.unit_statements.specs.Question.{question_of};
ghost use Rattle.unit_statements.specs.Sight.{seen_by};

use crate::question::Question;
use crate::reply::{Reply, description_claims, description_reply};
use crate::sight::Sight;
use crate::wanted::wanted;
use ahead_view::{ReadError, Source};
use core_calls::{Answer, Side};
use row_values::{Schema, Value};
use small_sql::{Bound, claims, table_schema};
use sql_text::{Command, Statement};
use std::alloc::{AllocError, Global};
use std::sync::Arc;
use tables::{Change, TableView};
use unit_changes::UnitView;
use unit_locks::Claim;
use unit_table::{Owner, Units};

/// What a question of a unit comes to, where no claim of it clashes with one of another unit.
#[derive(Drop)]
pub(crate) struct Found {
    pub(crate) claims: Vec<Claim>,
    /// Of the table that it is about.
    pub(crate) schema: Option<Arc<Schema, Global>>,
    pub(crate) answer: Answer,
    pub(crate) changes: Vec<Change>,
}

/// What a statement of an owner's unit comes to. Rows are read only where no claim of it clashes.
pub(crate) fn find<R: Source>(
    sight: &Sight<'_>,
    source: &mut R,
    units: &Units,
    owner: &Owner,
    question: Question<'_, '_, '_>,
) -> Result<Option<Found>, ReadError>
    requires holds { R.holds source.old sight.now.tables.now.tables }
    ensures found { IfOk result (λ found. IsGiven R.is_told R.reads (store_in sight.now.tables.now) source.old source.new (λ given. FindsOver found (others (plain_owner owner.now) units.now) (question_of question.entry) (left_of (unit_of (plain_owner owner.now) units.now)) (apply_all sight.now.changes.now given))) }
    ensures source { LeavesReader (MayRead R.reads) R.fails_to_read source.old result source.new }
    ensures clash { clashes (claims_of (question_of question.entry) (seen_by sight.now)) (others (plain_owner owner.now) units.now) ≡ true → source.new ≡ source.old }
{
    let command = &question.statement.command;
    find_statement(sight, source, units, owner, command, question.parameters)
}

// What a statement with these values for its markers comes to: it is bound once, and what it claims, is
// answered and changes comes from that.
fn find_statement<R: Source>(
    sight: &Sight<'_>,
    source: &mut R,
    units: &Units,
    owner: &Owner,
    command: &Command<'_>,
    parameters: &[Value<'_>],
) -> Result<Option<Found>, ReadError>
    requires holds { R.holds source.old sight.now.tables.now.tables }
    ensures found { IfOk result (λ found. IsGiven R.is_told R.reads (store_in sight.now.tables.now) source.old source.new (λ given. FindsIn found (others (plain_owner owner.now) units.now) (map value_of parameters.now) (left_of (unit_of (plain_owner owner.now) units.now)) command.now (apply_all sight.now.changes.now given))) }
    ensures source { LeavesReader (MayRead R.reads) R.fails_to_read source.old result source.new }
    ensures clash { clashes (claims_in (map value_of parameters.now) command.now (seen_by sight.now)) (others (plain_owner owner.now) units.now) ≡ true → source.new ≡ source.old }
{
    let bound = sight.bind(command, parameters)?;
    let found = find_bound(sight, source, units, owner, command, &bound);
    drop(bound);
    found
}

// What a bound statement comes to.
fn find_bound<R: Source>(
    sight: &Sight<'_>,
    source: &mut R,
    units: &Units,
    owner: &Owner,
    command: &Command<'_>,
    bound: &Bound<'_, '_>,
) -> Result<Option<Found>, ReadError>
    requires holds { R.holds source.old sight.now.tables.now.tables }
    requires over { IsOver bound.now (seen_by sight.now) }
    requires good { is_store (seen_by sight.now) ≡ true }
    ensures found { IfOk result (λ found. IsGiven R.is_told R.reads (store_in sight.now.tables.now) source.old source.new (λ given. (params : List SqlValue) (c : SqlCommand) → IsBound params c bound.now → FindsIn found (others (plain_owner owner.now) units.now) params (left_of (unit_of (plain_owner owner.now) units.now)) c (apply_all sight.now.changes.now given))) }
    ensures source { LeavesReader (MayRead R.reads) R.fails_to_read source.old result source.new }
    ensures clash { (params : List SqlValue) (c : SqlCommand) → IsBound params c bound.now → clashes (claims_in params c (seen_by sight.now)) (others (plain_owner owner.now) units.now) ≡ true → source.new ≡ source.old }
{
    let schema = bound.schema()?;
    let claims = claims(sight.alloc, bound)?;
    if units.clashes(owner, claims.as_slice()) {
        return Ok(None);
    }
    let rows = wanted(command, claims.as_slice());
    let Reply { answer, changes } = sight.reply(source, rows, bound, units.left(owner))?;
    Ok(Some(Found {
        claims,
        schema,
        answer,
        changes,
    }))
}

/// What a description comes to of a statement that creates no table. No row is read.
pub(crate) fn find_description(
    sight: &Sight<'_>,
    units: &Units,
    owner: &Owner,
    statement: &Statement<'_>,
    side: Side,
) -> Result<Option<Found>, AllocError>
    requires { unfit (describing statement.now side) ≡ None }
    ensures { IfOk result (λ found. FindsOver found (others (plain_owner owner.now) units.now) (describing statement.now side) (left_of (unit_of (plain_owner owner.now) units.now)) (seen_by sight.now)) }
{
    let mut base = sight.schemas();
    let mut view = UnitView {
        base: &mut base,
        changes: sight.changes,
        alloc: sight.alloc,
    };
    find_described(&mut view, units, sight.alloc, owner, statement, side)
}

// What a description comes to over the view of its unit.
fn find_described<V: TableView>(
    view: &mut V,
    units: &Units,
    alloc: Global,
    owner: &Owner,
    statement: &Statement<'_>,
    side: Side,
) -> Result<Option<Found>, AllocError>
where
    V::Fault: Drop,
    requires { is_create statement.now.command ≡ false }
    ensures { IfOk result (λ found. IsTrue V.is_faithful → Finds found (others (plain_owner owner.now) units.now) (described_claims (table_name statement.now.command) (schema_of (V.store view.old) (table_name statement.now.command))) (told (described side statement.now.command (schema_of (V.store view.old) (table_name statement.now.command)))) []) }
{
    let Ok(schema) = table_schema(alloc, &statement.command, view) else {
        return Err(AllocError);
    };
    let claimed = description_claims(alloc, &statement.command, schema.as_deref())?;
    if units.clashes(owner, claimed.as_slice()) {
        return Ok(None);
    }
    let Reply { answer, changes } = description_reply(alloc, statement, side, view)?;
    Ok(Some(Found {
        claims: claimed,
        schema,
        answer,
        changes,
    }))
}
