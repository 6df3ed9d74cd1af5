//! What becomes of a unit that asks.

ghost use Rattle.std.specs.Prelude.{◌≡◌, [], IfOk, None, OnErr, OnOk, false, map, true};
ghost use Rattle.tables.specs.ChangeView.{change_of};
ghost use Rattle.ahead_view.specs.Source.{LeavesReader, MayRead};
ghost use Rattle.core_calls.specs.Answer.{answer_of};
ghost use Rattle.core_model.specs.Asked.{Clashes, answer_in, claims_of, describing, outcome, unfit};
ghost use Rattle.core_model.specs.Events.{asked_of, happens_asked};
ghost use Rattle.core_model.specs.Units.{clashes, left_of, others, unit_of, view};
ghost use Rattle.paged_tables.specs.PagedTables.{store_in};
ghost use Rattle.unit_table.specs.Owner.{plain_owner};
ghost use Rattle.unit_statements.specs.Base.{base_of};
ghost use Rattle.unit_statements.specs.Found.{FindsOver};
ghost use Rattle.unit_statements.specs.Given.{IsAsked, IsGiven, units_after};
ghost use Rattle.unit_statements.specs.Question.{question_of};

use crate::base::Base;
use crate::finding::{Found, find, find_description};
use crate::question::Question;
use crate::sight::Sight;
use ahead_view::{ReadError, Source};
use core_calls::{Answer, Refusal, Side};
use row_values::Schema;
use sql_text::Statement;
use std::alloc::{AllocError, Global};
use std::sync::Arc;
use tables::Change;
use unit_changes::UnitChanges;
use unit_locks::Claim;
use unit_table::{KeepError, Owner, Units};

impl Base {
    /// What a fit statement of an owner's unit is answered over the committed tables, whose rows the source reads, and
    /// what becomes of the unit: it keeps the claims of the statement and its changes, both or neither. The tables stay.
    ///
    /// `Clashes` is answered exactly where a claim of it clashes with one of another unit, and then no row is read;
    /// `TooManyClaims` where its unit would have more than 65,535. Memory may be refused, also where the rows of an answer
    /// take more than `row_bytes` (8 bytes each beside its own), and the device may fail in a read: then all units stay.
    ///
    /// Of a source that is not told it may be given other rows of the same tables, and is then answered over these.
    pub fn ask<R: Source>(
        &mut self,
        source: &mut R,
        alloc: Global,
        row_bytes: usize,
        owner: &Owner,
        question: Question<'_, '_, '_>,
    ) -> Result<Answer, ReadError>
        requires fit { unfit (question_of question) ≡ None }
        requires holds { R.holds source.old self.old.tables.tables }
        ensures given { IfOk result (λ told. IsGiven R.is_told R.reads (store_in self.old.tables) source.old source.new (IsAsked (plain_owner owner.now) (question_of question.entry) self.old.units self.new.units (answer_of told))) }
        ensures tables { self.new.tables ≡ self.old.tables }
        ensures kept { OnErr result (self.new.units ≡ self.old.units) }
        ensures source { LeavesReader (MayRead R.reads) R.fails_to_read source.old result source.new }
        ensures clash { asked_of (base_of self.old) (plain_owner owner.now) (question_of question.entry) ≡ Clashes → source.new ≡ source.old }
    {
        match look(self, source, alloc, row_bytes, owner, question)? {
            None => Ok(Answer::Refused(Refusal::Clashes)),
            Some(found) => Ok(conclude(&mut self.units, owner, found)?),
        }
    }

    /// What a description is answered of a statement that creates no table, over the committed tables, and what becomes of
    /// the unit: it claims nothing, but to read a table that is not there. No row is read, and the tables stay. `Clashes`
    /// and `TooManyClaims` are answered as where the statement is run. Memory may be refused: then all units stay.
    pub fn describe(
        &mut self,
        alloc: Global,
        owner: &Owner,
        statement: &Statement<'_>,
        side: Side,
    ) -> Result<Answer, AllocError>
        requires fit { unfit (describing statement.now side) ≡ None }
        ensures answer { IfOk result (λ told. answer_of told ≡ answer_in (asked_of (base_of self.old) (plain_owner owner.now) (describing statement.now side))) }
        ensures base { OnOk result (base_of self.new ≡ happens_asked (base_of self.old) (plain_owner owner.now) (asked_of (base_of self.old) (plain_owner owner.now) (describing statement.now side))) }
        ensures tables { self.new.tables ≡ self.old.tables }
        ensures kept { OnErr result (self.new.units ≡ self.old.units) }
    {
        match look_for_description(self, alloc, owner, statement, side)? {
            None => Ok(Answer::Refused(Refusal::Clashes)),
            Some(found) => conclude(&mut self.units, owner, found),
        }
    }
}

// What a fit statement of an owner's unit comes to over the committed tables.
fn look<R: Source>(
    base: &Base,
    source: &mut R,
    alloc: Global,
    row_bytes: usize,
    owner: &Owner,
    question: Question<'_, '_, '_>,
) -> Result<Option<Found>, ReadError>
    requires holds { R.holds source.old base.now.tables.tables }
    ensures found { IfOk result (λ found. IsGiven R.is_told R.reads (store_in base.now.tables) source.old source.new (λ given. FindsOver found (others (plain_owner owner.now) base.now.units) (question_of question.entry) (left_of (unit_of (plain_owner owner.now) base.now.units)) (view given (unit_of (plain_owner owner.now) base.now.units)))) }
    ensures source { LeavesReader (MayRead R.reads) R.fails_to_read source.old result source.new }
    ensures clash { clashes (claims_of (question_of question.entry) (view (store_in base.now.tables) (unit_of (plain_owner owner.now) base.now.units))) (others (plain_owner owner.now) base.now.units) ≡ true → source.new ≡ source.old }
{
    let none = UnitChanges::new(alloc);
    let sight = sight_of(base, owner, &none, alloc, row_bytes);
    find(&sight, source, &base.units, owner, question)
}

// What a description comes to of a statement that creates no table, over the committed tables.
fn look_for_description(
    base: &Base,
    alloc: Global,
    owner: &Owner,
    statement: &Statement<'_>,
    side: Side,
) -> Result<Option<Found>, AllocError>
    requires fit { unfit (describing statement.now side) ≡ None }
    ensures { IfOk result (λ found. FindsOver found (others (plain_owner owner.now) base.now.units) (describing statement.now side) (left_of (unit_of (plain_owner owner.now) base.now.units)) (view (store_in base.now.tables) (unit_of (plain_owner owner.now) base.now.units))) }
{
    let none = UnitChanges::new(alloc);
    let sight = sight_of(base, owner, &none, alloc, usize::MAX);
    find_description(&sight, &base.units, owner, statement, side)
}

// What an owner's unit sees; a unit without work is not listed, and has changed nothing.
fn sight_of<'a>(
    base: &'a Base,
    owner: &Owner,
    none: &'a UnitChanges,
    alloc: Global,
    row_bytes: usize,
) -> Sight<'a>
    requires { none.now ≡ [] }
    ensures tables { result.tables.now ≡ base.now.tables }
    ensures changes { result.changes.now ≡ (unit_of (plain_owner owner.now) base.now.units).changes }
{
    let changes = match base.units.unit(owner) {
        Some(changes) => changes,
        None => none,
    };
    Sight {
        tables: &base.tables,
        changes,
        alloc,
        row_bytes,
    }
}

// What becomes of a unit whose question comes to this. The changes are of one table, whose schema is
// told, as the view of the unit shows it; a table that is created brings its own. Out of memory, all
// units stay.
fn conclude(units: &mut Units, owner: &Owner, found: Found) -> Result<Answer, AllocError>
    requires { clashes found.claims.items (others (plain_owner owner.now) units.old) ≡ false }
    ensures answer { IfOk result (λ told. answer_of told ≡ answer_in (outcome (others (plain_owner owner.now) units.old) (unit_of (plain_owner owner.now) units.old) found.claims.items (answer_of found.answer) (map change_of found.changes.items))) }
    ensures units { OnOk result (units.new ≡ units_after units.old (plain_owner owner.now) (outcome (others (plain_owner owner.now) units.old) (unit_of (plain_owner owner.now) units.old) found.claims.items (answer_of found.answer) (map change_of found.changes.items))) }
    ensures kept { OnErr result (units.new ≡ units.old) }
{
    let Found {
        claims,
        schema,
        answer,
        changes,
    } = found;
    match units.keep(owner, claims, schema.as_ref(), changes) {
        Ok(()) => Ok(answer),
        Err(KeepError::TooMany) => Ok(Answer::Refused(Refusal::TooManyClaims)),
        Err(KeepError::NoMemory) => Err(AllocError),
    }
}
