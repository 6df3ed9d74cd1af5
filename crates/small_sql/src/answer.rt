//! What statements are answered.

ghost use Rattle.std.specs.Prelude.{◌≡◌, ◌∷◌, [], IfOk};
ghost use Rattle.tables.specs.ChangeView.{change_of};
ghost use Rattle.sql_semantics.specs.Meaning as meaning;
ghost use Rattle.small_sql.specs.Answer.{answer_of};

use core_calls::SqlFault;
use std::alloc::{AllocError, Global};
use tables::{Change, RowList};

/// What a statement is answered.
#[derive(Debug, Drop)]
pub enum Answer {
    /// It is refused, and changes nothing.
    Refused(SqlFault),
    /// The changes that it makes, and how many rows they concern.
    Changes(Vec<Change>, usize),
    /// The rows that it asks for.
    Rows(RowList),
}

/// One change, which concerns so many rows.
pub(crate) fn one_change(alloc: Global, change: Change, count: usize) -> Result<Answer, AllocError>
    ensures { IfOk result (λ answer. answer_of answer ≡ meaning.Changes (change_of change ∷ []) count) }
{
    let mut changes = Vec::new(alloc);
    changes.push(change)?;
    Ok(Answer::Changes(changes, count))
}
