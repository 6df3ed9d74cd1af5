//! What is checked of a statement behind its grammar.

ghost use Rattle.std.specs.Prelude.{◌≡◌, length, nat_lt, ◌||◌};
ghost use Rattle.std.specs.List.{list_any};
ghost use Rattle.sql_text.specs.Checks as spec;

use crate::draft::{Draft, DraftColumn, DraftKey, DraftType};
use crate::tree::Columns;

/// The most columns of a table.
const MAX_COLUMNS: usize = 64;

/// The most columns of a key.
const MAX_KEY_COLUMNS: usize = 4;

/// The most names that are selected.
const MAX_SELECTED: usize = 64;

/// The greatest length of a text or of bytes, in bytes.
const MAX_LENGTH: usize = 2_000;

/// Why a statement of the grammar is refused.
#[derive(Clone, Copy)]
pub(crate) enum Refusal {
    /// A limit of markers, columns, key columns, selected names or lengths.
    Limit,
    /// A length of 0, or a name that repeats one of its list, from which on there are so many
    /// bytes.
    Wrong(usize),
    /// A key column that is no column.
    KeyUnknown,
}

fn is_too_long(column_type: DraftType) -> bool
    ensures { result ≡ spec.is_too_long column_type }
{
    match column_type {
        DraftType::VarChar { length, .. } | DraftType::VarBinary { length, .. } => length
            > MAX_LENGTH,
        _ => false,
    }
}

fn has_too_long(columns: &[DraftColumn<'_>]) -> bool
    ensures { result ≡ list_any (λ d. spec.is_too_long d.column_type) columns.now }
{
    columns.iter().any(|column| is_too_long(column.column_type))
}

fn is_too_large(command: &Draft<'_>) -> bool
    ensures { result ≡ spec.is_too_large command.now }
{
    match command {
        Draft::Create { columns, key, .. } => {
            columns.len() > MAX_COLUMNS
                || key.len() > MAX_KEY_COLUMNS
                || has_too_long(columns.as_slice())
        }
        Draft::Select {
            columns: Columns::Named(names),
            ..
        } => names.len() > MAX_SELECTED,
        _ => false,
    }
}

fn empty_at(column_type: DraftType) -> Option<usize>
    ensures { result ≡ spec.empty_at column_type }
{
    match column_type {
        DraftType::VarChar { length, left } | DraftType::VarBinary { length, left } => {
            if length == 0 { Some(left) } else { None }
        }
        _ => None,
    }
}

/// The place of the first length that is 0.
fn first_empty(mut columns: &[DraftColumn<'_>]) -> Option<usize>
    ensures { result ≡ spec.first_empty columns.entry.now }
{
    while let [column, rest @ ..] = columns {
        if let Some(left) = empty_at(column.column_type) {
            return Some(left);
        }
        columns = rest;
    }
    None
}

fn is_same(a: &[u8], b: &[u8]) -> bool
    ensures { result ≡ spec.same_name a.now b.now }
{
    a.eq_ignore_ascii_case(b)
}

fn is_column(columns: &[DraftColumn<'_>], name: &[u8]) -> bool
    ensures { result ≡ spec.is_column columns.now name.now }
{
    columns
        .iter()
        .any(|column| is_same(column.name.bytes(), name))
}

fn is_key_column(key: &[DraftKey<'_>], name: &[u8]) -> bool
    ensures { result ≡ list_any (λ k. spec.same_name k.name name.now) key.now }
{
    key.iter().any(|column| is_same(column.name.bytes(), name))
}

/// The place of the first column whose name is one of an earlier column.
fn repeated_column(columns: &[DraftColumn<'_>]) -> Option<usize>
    ensures { result ≡ spec.repeated_column columns.now }
{
    for (at, column) in columns.iter().enumerate() {
        if is_column(&columns[..at], column.name.bytes()) {
            return Some(column.left);
        }
    }
    None
}

/// The place of the first key column whose name is one of an earlier key column.
fn repeated_key(key: &[DraftKey<'_>]) -> Option<usize>
    ensures { result ≡ spec.repeated_key key.now }
{
    for (at, column) in key.iter().enumerate() {
        if is_key_column(&key[..at], column.name.bytes()) {
            return Some(column.left);
        }
    }
    None
}

fn has_unknown(columns: &[DraftColumn<'_>], key: &[DraftKey<'_>]) -> bool
    ensures { result ≡ spec.has_unknown columns.now key.now }
{
    key.iter()
        .any(|column| !is_column(columns, column.name.bytes()))
}

#[tactic(auto, unfolding(crate::specs::Checks::table_refusal))]
fn table_refusal(columns: &[DraftColumn<'_>], key: &[DraftKey<'_>]) -> Option<Refusal>
    ensures { result ≡ spec.table_refusal columns.now key.now }
{
    if let Some(left) = first_empty(columns) {
        return Some(Refusal::Wrong(left));
    }
    if let Some(left) = repeated_column(columns) {
        return Some(Refusal::Wrong(left));
    }
    if let Some(left) = repeated_key(key) {
        return Some(Refusal::Wrong(left));
    }
    if has_unknown(columns, key) {
        return Some(Refusal::KeyUnknown);
    }
    None
}

/// Why a statement with so many markers is refused.
#[tactic(auto, unfolding(crate::specs::Checks::refusal_of))]
pub(crate) fn refusal_of(markers: usize, command: &Draft<'_>) -> Option<Refusal>
    ensures { result ≡ spec.refusal_of markers command.now }
{
    if markers > 128 || is_too_large(command) {
        return Some(Refusal::Limit);
    }
    match command {
        Draft::Create { columns, key, .. } => table_refusal(columns.as_slice(), key.as_slice()),
        _ => None,
    }
}
