//! Statements, whose names and literals lie in the text.

use sql_lex::{Comparison, Part};
use sqlite_items::{Boxed, Items};

/// A value as a text spells it.
#[derive(Drop)]
pub enum Literal<'a> {
    /// Digits, with an optional `-` before them; the number lies in BIGINT.
    Number(Part<'a>),
    /// What stands between the quotes, with each quote in it still doubled.
    Text(Part<'a>),
    /// Pairs of hexadecimal digits.
    Bytes(Part<'a>),
    /// `?`, and how many markers stand before it in the text.
    Marker(usize),
    Null,
}

/// A column by its name, or a value.
#[derive(Drop)]
pub enum Term<'a> {
    Column(Part<'a>),
    Value(Literal<'a>),
}

/// What is done with a further term of a sum.
#[derive(Clone, Copy, Debug, PartialEq, Eq)]
pub enum Operation {
    Add,
    Subtract,
}

/// A further term of a sum.
#[derive(Drop)]
pub struct Addend<'a> {
    pub operation: Operation,
    pub term: Term<'a>,
}

/// Terms that are added and subtracted from left to right.
#[derive(Drop)]
pub struct Sum<'a> {
    pub first: Term<'a>,
    pub rest: Items<Addend<'a>>,
}

/// What a row is tested by. Each list has at least one part.
#[derive(Drop)]
pub enum Predicate<'a> {
    /// Parts with OR between them.
    Any(Items<Predicate<'a>>),
    /// Parts with AND between them.
    All(Items<Predicate<'a>>),
    Not(Boxed<Predicate<'a>>),
    /// In parentheses.
    Group(Boxed<Predicate<'a>>),
    Compare(Term<'a>, Comparison, Term<'a>),
    /// A column IS NULL, or IS NOT NULL where the flag is set.
    IsNull(Part<'a>, bool),
}

/// The type of a column.
#[derive(Clone, Copy, Debug, PartialEq, Eq)]
pub enum ColumnType {
    SmallInt,
    Integer,
    BigInt,
    /// At most so many bytes of text.
    VarChar { length: usize },
    /// At most so many bytes.
    VarBinary { length: usize },
}

/// A column of a table to be made.
#[derive(Drop)]
pub struct Definition<'a> {
    pub name: Part<'a>,
    pub column_type: ColumnType,
    pub nullable: bool,
}

/// A column of the key of a table to be made.
#[derive(Drop)]
pub struct KeyColumn<'a> {
    pub name: Part<'a>,
}

/// A column, and the sum that becomes its value.
#[derive(Drop)]
pub struct Assignment<'a> {
    pub column: Part<'a>,
    pub sum: Sum<'a>,
}

/// Which columns a statement gives or asks for.
#[derive(Drop)]
pub enum Columns<'a> {
    /// All, in the order of the table.
    All,
    Named(Items<Part<'a>>),
}

/// What a statement asks for.
#[derive(Drop)]
pub enum Command<'a> {
    Create {
        table: Part<'a>,
        columns: Items<Definition<'a>>,
        key: Items<KeyColumn<'a>>,
    },
    Insert {
        table: Part<'a>,
        columns: Columns<'a>,
        values: Items<Literal<'a>>,
    },
    Update {
        table: Part<'a>,
        assignments: Items<Assignment<'a>>,
        filter: Option<Predicate<'a>>,
    },
    Delete {
        table: Part<'a>,
        filter: Option<Predicate<'a>>,
    },
    Select {
        columns: Columns<'a>,
        table: Part<'a>,
        filter: Option<Predicate<'a>>,
    },
}

/// A statement.
#[derive(Drop)]
pub struct Statement<'a> {
    pub command: Command<'a>,
    /// How many markers it has.
    pub markers: usize,
}
