//! The front of a form beside the form of a value.

ghost use Rattle.std.specs.Prelude.{◌≡◌, ◌∷◌, []};
ghost use Rattle.row_values.specs.Value.{class_of};
ghost use Rattle.key_map.specs.SortForm.{byte_form, content_form, text_form, value_form};
ghost use Rattle.key_map.specs.Fields.{value_in};
ghost use Rattle.key_map.specs.Fronts.{Compares};

use crate::field::Field;
use crate::form::counted_up;
use std::cmp::Ordering;

/// How the front of a form stands to a piece of another one.
#[derive(Clone, Copy)]
pub(crate) enum Front<'f> {
    /// The form comes before all that begin with the piece.
    Before,
    /// It comes behind all of these.
    Behind,
    /// It begins with the piece, and this follows there.
    Same(&'f [u8]),
}

/// Beside one byte.
#[inline(always)]
pub(crate) fn byte(form: &[u8], other: u8) -> Front<'_>
    ensures { Compares form.now (other ∷ []) result }
{
    let [first, rest @ ..] = form else {
        return Front::Before;
    };
    match (*first).cmp(&other) {
        Ordering::Less => Front::Before,
        Ordering::Equal => Front::Same(rest),
        Ordering::Greater => Front::Behind,
    }
}

/// Beside bytes.
fn bytes<'f>(form: &'f [u8], piece: &[u8]) -> Front<'f>
    ensures { Compares form.now piece.now result }
{
    let mut rest = form;
    for next in piece {
        match byte(rest, *next) {
            Front::Same(after) => rest = after,
            Front::Before => return Front::Before,
            Front::Behind => return Front::Behind,
        }
    }
    Front::Same(rest)
}

/// Beside a byte of a text.
#[inline(always)]
fn text_byte(form: &[u8], next: u8) -> Front<'_>
    ensures { Compares form.now (byte_form next) result }
{
    if next == 0 {
        return bytes(form, &[0, 255]);
    }
    byte(form, next)
}

/// Beside a text or bytes.
fn text<'f>(form: &'f [u8], text: &[u8]) -> Front<'f>
    ensures { Compares form.now (text_form text.now) result }
{
    let mut rest = form;
    for next in text {
        match text_byte(rest, *next) {
            Front::Same(after) => rest = after,
            Front::Before => return Front::Before,
            Front::Behind => return Front::Behind,
        }
    }
    bytes(rest, &[0, 0])
}

/// The place of a value's class in the order.
pub(crate) fn class(field: Field<'_>) -> u8
    ensures { result ≡ class_of (value_in field.entry) }
{
    match field {
        Field::Null => 0,
        Field::Number(_) => 1,
        Field::Text(_) => 2,
        Field::Bytes(_) => 3,
    }
}

/// Beside what follows the class of a value.
fn content<'f>(form: &'f [u8], field: Field<'_>) -> Front<'f>
    ensures { Compares form.now (content_form (value_in field.entry)) result }
{
    match field {
        Field::Null => Front::Same(form),
        Field::Number(number) => bytes(form, &counted_up(number).to_be_bytes()),
        Field::Text(content) => text(form, content),
        Field::Bytes(content) => text(form, content),
    }
}

/// Beside a value.
pub(crate) fn value<'f>(form: &'f [u8], field: Field<'_>) -> Front<'f>
    ensures { Compares form.now (value_form (value_in field.entry)) result }
{
    match byte(form, class(field)) {
        Front::Same(rest) => content(rest, field),
        Front::Before => Front::Before,
        Front::Behind => Front::Behind,
    }
}
