//! What a unit sees of the tables.

ghost use Rattle.std.specs.Prelude.{◌≡◌, IfOk, IsTrue, List, map, true};
ghost use Rattle.row_values.specs.Value.{Value as SqlValue, value_of};
ghost use Rattle.sql_text.specs.declared.tree.Command.{Command as SqlCommand};
ghost use Rattle.tables.specs.Applied.{apply_all};
ghost use Rattle.tables.specs.ChangeView.{change_of};
ghost use Rattle.tables.specs.View.{is_store};
ghost use Rattle.sql_semantics.specs.Frame.{changes_of, covered_answer};
ghost use Rattle.small_sql.specs.Bound.{IsBound, IsOver};
ghost use Rattle.core_calls.specs.Answer.{answer_of};
ghost use Rattle.core_model.specs.Asked.{meant};
ghost use Rattle.paged_tables.specs.PagedTables.{store_in};
ghost use Rattle.ahead_view.specs.Source.{LeavesReader, MayRead};
ghost use Rattle.unit_statements.specs.Given.{IsGiven, IsReplied};
ghost use Rattle.unit_statements.specs.Sight.{seen_by};

use crate::reply::{Reply, statement_reply, within};
use ahead_view::{AheadView, ReadAhead, ReadError, Source, Wanted, read_ahead};
use paged_tables::PagedTables;
use row_values::Value;
use small_sql::Bound;
use sql_text::Command;
use std::alloc::{AllocError, Global};
use tables::TableView;
use unit_changes::{UnitChanges, UnitView};

/// What a unit sees: the committed tables, with what it has changed. Contracts see it by `seen_by`.
#[derive(Clone, Copy)]
pub(crate) struct Sight<'a> {
    pub(crate) tables: &'a PagedTables,
    pub(crate) changes: &'a UnitChanges,
    pub(crate) alloc: Global,
    /// The bytes of rows that an answer may have.
    pub(crate) row_bytes: usize,
}

impl<'a> Sight<'a> {
    /// The committed tables without their rows.
    pub(crate) fn schemas(&self) -> AheadView<'a, 'static>
        ensures { result.store ≡ store_in self.now.tables.now }
    {
        AheadView::new(self.tables, ReadAhead::Nothing)
    }

    /// The statement with these values for its markers, bound to what is seen of its table. No row is
    /// read.
    pub(crate) fn bind<'c, 't>(
        &self,
        command: &'c Command<'t>,
        parameters: &[Value<'_>],
    ) -> Result<Bound<'c, 't>, AllocError>
        ensures bound { IfOk result (λ b. IsBound (map value_of parameters.now) command.now b) }
        ensures over { IfOk result (λ b. IsOver b (seen_by self.now)) }
        ensures good { IfOk result (λ _. is_store (seen_by self.now) ≡ true) }
    {
        let mut base = self.schemas();
        let mut view = UnitView {
            base: &mut base,
            changes: self.changes,
            alloc: self.alloc,
        };
        match small_sql::bind(self.alloc, command, parameters, &mut view) {
            Ok(bound) => Ok(bound),
            Err(_) => Err(AllocError),
        }
    }

    /// What a bound statement is answered, and which changes it makes, where so many bytes of changes are
    /// left: the committed rows that it asks for are read first, and it is answered over the tables that
    /// have what was read. Rows of more bytes than an answer may have count as want of memory.
    pub(crate) fn reply<R: Source>(
        &self,
        source: &mut R,
        wanted: Wanted<'_>,
        bound: &Bound<'_, '_>,
        left: usize,
    ) -> Result<Reply, ReadError>
        requires holds { R.holds source.old self.now.tables.now.tables }
        requires over { IsOver bound.now (seen_by self.now) }
        requires good { is_store (seen_by self.now) ≡ true }
        ensures given { IfOk result (λ r. IsGiven R.is_told R.reads (store_in self.now.tables.now) source.old source.new (λ given. IsReplied bound.now left (apply_all self.now.changes.now given) r)) }
        ensures source { LeavesReader (MayRead R.reads) R.fails_to_read source.old result source.new }
    {
        let read = read_ahead(source, self.alloc, self.tables, wanted)?;
        let base = AheadView::new(self.tables, read);
        match reply_over(base, self.changes, self.alloc, self.row_bytes, bound, left) {
            Ok(reply) => Ok(reply),
            Err(AllocError) => Err(ReadError::NoMemory),
        }
    }
}

// What a bound statement is answered over these tables with what its unit has changed, in no more bytes of rows than these.
fn reply_over<V: TableView + Drop>(
    base: V,
    changes: &UnitChanges,
    alloc: Global,
    row_bytes: usize,
    bound: &Bound<'_, '_>,
    left: usize,
) -> Result<Reply, AllocError>
where
    V::Fault: Drop,
    requires over { IsTrue V.is_faithful → IsOver bound.now (apply_all changes.now (V.store base)) }
    requires good { IsTrue V.is_faithful → is_store (apply_all changes.now (V.store base)) ≡ true }
    ensures answer { IfOk result (λ r. IsTrue V.is_faithful → (params : List SqlValue) (c : SqlCommand) → IsBound params c bound.now → answer_of r.answer ≡ meant (covered_answer params left c (apply_all changes.now (V.store base)))) }
    ensures changes { IfOk result (λ r. IsTrue V.is_faithful → (params : List SqlValue) (c : SqlCommand) → IsBound params c bound.now → map change_of r.changes.items ≡ changes_of (covered_answer params left c (apply_all changes.now (V.store base)))) }
{
    let mut base = base;
    let mut view = UnitView {
        base: &mut base,
        changes,
        alloc,
    };
    let reply = statement_reply(alloc, bound, left, &mut view)?;
    within(reply, row_bytes)
}
