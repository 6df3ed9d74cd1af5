//! Predicates whose names and literals are resolved.

use crate::operand::Operand;
use sql_lex::Comparison;
use sqlite_items::{Boxed, Items};

/// A predicate whose names and literals are resolved.
#[derive(Debug, Drop)]
pub(crate) enum Test {
    /// Parts with OR between them.
    Any(Items<Test>),
    /// Parts with AND between them.
    All(Items<Test>),
    Not(Boxed<Test>),
    Compare(Operand, Comparison, Operand),
    /// A column, by its place, IS NULL, or IS NOT NULL where the flag is set.
    IsNull(usize, bool),
}
