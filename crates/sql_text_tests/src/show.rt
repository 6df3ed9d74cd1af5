//! Writes a statement in a form that shows its tree.

use sql_lex::{Comparison, Part};
use sql_text::{
    Assignment, ColumnType, Columns, Command, Definition, KeyColumn, Literal, Operation, Predicate,
    Sum, Term,
};
use std::alloc::{AllocError, Global};

fn part(out: &mut String, part: &Part<'_>) -> Result<(), AllocError> {
    for byte in part.bytes() {
        out.push(char::from(*byte))?;
    }
    Ok(())
}

fn number(alloc: Global, out: &mut String, n: usize) -> Result<(), AllocError> {
    let digits = format!(in alloc; "{n}")?;
    out.push_str(digits.as_str())
}

fn literal(alloc: Global, out: &mut String, literal: &Literal<'_>) -> Result<(), AllocError> {
    match literal {
        Literal::Number(digits) => part(out, digits),
        Literal::Text(text) => {
            out.push('\'')?;
            part(out, text)?;
            out.push('\'')
        }
        Literal::Bytes(digits) => {
            out.push('x')?;
            part(out, digits)
        }
        Literal::Marker(before) => {
            out.push('?')?;
            number(alloc, out, *before)
        }
        Literal::Null => out.push_str("null"),
    }
}

fn term(alloc: Global, out: &mut String, term: &Term<'_>) -> Result<(), AllocError> {
    match term {
        Term::Column(name) => part(out, name),
        Term::Value(value) => literal(alloc, out, value),
    }
}

fn sum(alloc: Global, out: &mut String, sum: &Sum<'_>) -> Result<(), AllocError> {
    term(alloc, out, &sum.first)?;
    for addend in sum.rest.as_slice() {
        match addend.operation {
            Operation::Add => out.push('+')?,
            Operation::Subtract => out.push('-')?,
        }
        term(alloc, out, &addend.term)?;
    }
    Ok(())
}

fn comparison(out: &mut String, comparison: Comparison) -> Result<(), AllocError> {
    out.push_str(match comparison {
        Comparison::Equal => "=",
        Comparison::NotEqual => "<>",
        Comparison::Less => "<",
        Comparison::LessEqual => "<=",
        Comparison::Greater => ">",
        Comparison::GreaterEqual => ">=",
    })
}

#[cycle(shown)]
fn joined(
    alloc: Global,
    out: &mut String,
    parts: &[Predicate<'_>],
    between: char,
    depth: usize,
) -> Result<(), AllocError> {
    if parts.len() > 1 {
        out.push('(')?;
    }
    let mut first = true;
    for part in parts {
        if !first {
            out.push(between)?;
        }
        first = false;
        if depth > 0 {
            predicate(alloc, out, part, depth - 1)?;
        }
    }
    if parts.len() > 1 {
        out.push(')')?;
    }
    Ok(())
}

/// `|` for OR, `&` for AND, `!` for NOT, and braces for parentheses.
#[cycle(shown)]
fn predicate(
    alloc: Global,
    out: &mut String,
    tested: &Predicate<'_>,
    depth: usize,
) -> Result<(), AllocError> {
    if depth == 0 {
        return Ok(());
    }
    match tested {
        Predicate::Any(parts) => joined(alloc, out, parts.as_slice(), '|', depth - 1),
        Predicate::All(parts) => joined(alloc, out, parts.as_slice(), '&', depth - 1),
        Predicate::Not(inner) => {
            out.push('!')?;
            predicate(alloc, out, inner.get(), depth - 1)
        }
        Predicate::Group(inner) => {
            out.push('{')?;
            predicate(alloc, out, inner.get(), depth - 1)?;
            out.push('}')
        }
        Predicate::Compare(a, c, b) => {
            term(alloc, out, a)?;
            comparison(out, *c)?;
            term(alloc, out, b)
        }
        Predicate::IsNull(name, negated) => {
            part(out, name)?;
            out.push_str(if *negated { " notnull" } else { " isnull" })
        }
    }
}

fn filter(
    alloc: Global,
    out: &mut String,
    filter: &Option<Predicate<'_>>,
) -> Result<(), AllocError> {
    match filter {
        None => Ok(()),
        Some(tested) => {
            out.push_str(" where ")?;
            predicate(alloc, out, tested, 1000)
        }
    }
}

fn columns(out: &mut String, columns: &Columns<'_>) -> Result<(), AllocError> {
    match columns {
        Columns::All => out.push('*'),
        Columns::Named(names) => {
            for name in names.as_slice() {
                part(out, name)?;
                out.push(',')?;
            }
            Ok(())
        }
    }
}

fn sized(alloc: Global, out: &mut String, name: &str, length: usize) -> Result<(), AllocError> {
    out.push_str(name)?;
    number(alloc, out, length)
}

fn definition(
    alloc: Global,
    out: &mut String,
    definition: &Definition<'_>,
) -> Result<(), AllocError> {
    part(out, &definition.name)?;
    match definition.column_type {
        ColumnType::SmallInt => out.push_str(":smallint")?,
        ColumnType::Integer => out.push_str(":integer")?,
        ColumnType::BigInt => out.push_str(":bigint")?,
        ColumnType::VarChar { length } => sized(alloc, out, ":text", length)?,
        ColumnType::VarBinary { length } => sized(alloc, out, ":bytes", length)?,
    }
    out.push_str(if definition.nullable { "," } else { "!," })
}

fn key_column(out: &mut String, column: &KeyColumn<'_>) -> Result<(), AllocError> {
    part(out, &column.name)?;
    out.push(',')
}

fn assignment(
    alloc: Global,
    out: &mut String,
    assignment: &Assignment<'_>,
) -> Result<(), AllocError> {
    out.push(' ')?;
    part(out, &assignment.column)?;
    out.push('=')?;
    sum(alloc, out, &assignment.sum)
}

fn create(
    alloc: Global,
    out: &mut String,
    table: &Part<'_>,
    columns: &[Definition<'_>],
    key: &[KeyColumn<'_>],
) -> Result<(), AllocError> {
    out.push_str("create ")?;
    part(out, table)?;
    out.push(' ')?;
    for column in columns {
        definition(alloc, out, column)?;
    }
    out.push_str(" key ")?;
    for column in key {
        key_column(out, column)?;
    }
    Ok(())
}

fn insert(
    alloc: Global,
    out: &mut String,
    table: &Part<'_>,
    given: &Columns<'_>,
    values: &[Literal<'_>],
) -> Result<(), AllocError> {
    out.push_str("insert ")?;
    part(out, table)?;
    out.push(' ')?;
    columns(out, given)?;
    out.push(' ')?;
    for value in values {
        literal(alloc, out, value)?;
        out.push(',')?;
    }
    Ok(())
}

pub fn command(alloc: Global, command: &Command<'_>) -> Result<String, AllocError> {
    let mut out = String::new(alloc);
    match command {
        Command::Create {
            table,
            columns,
            key,
        } => create(alloc, &mut out, table, columns.as_slice(), key.as_slice())?,
        Command::Insert {
            table,
            columns,
            values,
        } => insert(alloc, &mut out, table, columns, values.as_slice())?,
        Command::Update {
            table,
            assignments,
            filter: tested,
        } => {
            out.push_str("update ")?;
            part(&mut out, table)?;
            for given in assignments.as_slice() {
                assignment(alloc, &mut out, given)?;
            }
            filter(alloc, &mut out, tested)?;
        }
        Command::Delete {
            table,
            filter: tested,
        } => {
            out.push_str("delete ")?;
            part(&mut out, table)?;
            filter(alloc, &mut out, tested)?;
        }
        Command::Select {
            columns: chosen,
            table,
            filter: tested,
        } => {
            out.push_str("select ")?;
            columns(&mut out, chosen)?;
            out.push(' ')?;
            part(&mut out, table)?;
            filter(alloc, &mut out, tested)?;
        }
    }
    Ok(out)
}
