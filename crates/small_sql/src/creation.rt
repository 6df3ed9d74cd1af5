//! Answers creations of tables.

ghost use Rattle.std.specs.Prelude.{◌≡◌, IfErr, IfOk, IsTrue, false, length};
ghost use Rattle.sql_semantics.specs.Create.{defined_schema};
ghost use Rattle.sql_semantics.specs.Meaning.{answered, create_answer};
ghost use Rattle.small_sql.specs.Answer.{answer_of};

use crate::answer::{Answer, one_change};
use crate::read::no_memory;
use core_calls::StatementError;
use sql_text::{Definition, KeyColumn};
use std::alloc::{AllocError, Global};
use tables::TableView;

// What the creation of a table of a name that no other has is answered.
fn created(
    alloc: Global,
    table: &str,
    definitions: &[Definition<'_>],
    key: &[KeyColumn<'_>],
    tables: usize,
    left: usize,
) -> Result<Answer, AllocError>
    ensures { IfOk result (λ answer. answer_of answer ≡ answered (create_answer left table.now (defined_schema definitions.now key.now) tables)) }
{
    match sql_changes::create(alloc, table, definitions, key, tables, left) {
        Ok(change) => one_change(alloc, change, 0),
        Err(StatementError::Fault(fault)) => Ok(Answer::Refused(fault)),
        Err(StatementError::NoMemory) => Err(AllocError),
    }
}

/// What a CREATE TABLE is answered whose name no table has, where so many bytes of changes are left: the
/// one change that creates the table. It is refused where the name is none or the columns and the key
/// are no schema, by the 1,001st table, and where the change has more bytes than are left.
pub(crate) fn create<V: TableView>(
    alloc: Global,
    table: &str,
    definitions: &[Definition<'_>],
    key: &[KeyColumn<'_>],
    left: usize,
    view: &mut V,
) -> Result<Answer, V::Fault>
    ensures answer { IfOk result (λ answer. IsTrue V.is_faithful → answer_of answer ≡ answered (create_answer left table.now (defined_schema definitions.now key.now) (length (V.store view.old)))) }
    ensures fault { IfErr result (λ fault. IsTrue V.is_faithful → V.tells_damage fault ≡ false) }
    ensures store { V.store view.new ≡ V.store view.old }
{
    let tables = view.tables()?;
    match created(alloc, table, definitions, key, tables, left) {
        Ok(answer) => Ok(answer),
        Err(AllocError) => Err(no_memory::<V>()),
    }
}
