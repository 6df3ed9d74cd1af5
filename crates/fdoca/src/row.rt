//! Rows.

ghost use Rattle.std.specs.Prelude.{◌≡◌, ◌≤◌, ◌<◌, IfOk, IfSome, length, option_map};
ghost use Rattle.row_values.specs.Value.{value_of};
ghost use Rattle.fdoca.specs.Reading.{content_at, counted_at, front_of, marked_at, row_at, utf8_in, value_at, values_at};
ghost use Rattle.fdoca.specs.Calls.{GivesValues, ReadsRow};
ghost use Rattle.fdoca.specs.Slices.{AllStand};

use crate::descriptor::Descriptor;
use crate::fault::DescriptorFault;
use crate::field::{Field, FieldType};
use crate::values::{KEPT_IN_PLACE, Values};
use byteorder::{BigEndian, ByteOrder};
use row_values::Value;
use std::alloc::Global;

/// Stands before a row, and before a value of a nullable field.
const PRESENT: u8 = 0x00;

/// Stands in place of a NULL.
const ABSENT: u8 = 0xFF;

/// The values of the row that the data of an FDODTA are: 00, one value for each field, and nothing
/// else. Texts and bytes are lent from the row. `Malformed` exactly where the bytes are no row of the
/// descriptor: where a mark is neither 00 nor FF, a text is not UTF-8, a variable value is longer than
/// its field's length, a value runs past the row, or bytes are left. Memory may be refused past 16
/// values alone.
pub fn read_row<'a>(
    alloc: Global,
    descriptor: &Descriptor,
    row: &'a [u8],
) -> Result<Values<'a>, DescriptorFault>
    ensures values { ReadsRow descriptor.now row.now result }
    // Each text and each bytes are the slice of the row from their place on.
    ensures places { IfOk result (λ values. AllStand row.now 1 descriptor.now values) }
{
    read(alloc, descriptor.fields(), row)
}

#[tactic(auto, unfolding(crate::specs::Reading::row_at))]
fn read<'a>(alloc: Global, fields: &[Field], row: &'a [u8]) -> Result<Values<'a>, DescriptorFault>
    ensures { GivesValues fields.now (row_at fields.now row.now) result }
{
    let [PRESENT, rest @ ..] = row else {
        return Err(DescriptorFault::Malformed);
    };
    read_values(alloc, fields, rest)
}

fn read_values<'a>(
    alloc: Global,
    fields: &[Field],
    bytes: &'a [u8],
) -> Result<Values<'a>, DescriptorFault>
    ensures { GivesValues fields.now (values_at fields.now bytes.now) result }
{
    if fields.len() > KEPT_IN_PLACE {
        return read_many(alloc, fields, bytes);
    }
    read_few(alloc, fields, bytes).ok_or(DescriptorFault::Malformed)
}

fn read_few<'a>(alloc: Global, fields: &[Field], bytes: &'a [u8]) -> Option<Values<'a>>
    requires { length fields.now ≤ 16 }
    ensures { result ≡ values_at fields.now bytes.now }
{
    let mut few = [Value::Null; KEPT_IN_PLACE];
    let mut rest = bytes;
    for i in 0..fields.len() {
        let Some((value, behind)) = split_value(fields[i], rest) else {
            return None;
        };
        few[i] = value;
        rest = behind;
    }
    if !rest.is_empty() {
        return None;
    }
    Some(Values {
        few,
        count: fields.len(),
        many: Vec::new(alloc),
    })
}

fn read_many<'a>(
    alloc: Global,
    fields: &[Field],
    bytes: &'a [u8],
) -> Result<Values<'a>, DescriptorFault>
    requires { 16 < length fields.now }
    ensures { GivesValues fields.now (values_at fields.now bytes.now) result }
{
    let mut many = Vec::with_capacity(alloc, fields.len())?;
    let mut rest = bytes;
    for i in 0..fields.len() {
        let Some((value, behind)) = split_value(fields[i], rest) else {
            return Err(DescriptorFault::Malformed);
        };
        many.push(value)?;
        rest = behind;
    }
    if !rest.is_empty() {
        return Err(DescriptorFault::Malformed);
    }
    Ok(Values {
        few: [Value::Null; KEPT_IN_PLACE],
        count: 0,
        many,
    })
}

/// A value of a field in front, with what follows.
#[tactic(auto, unfolding(crate::specs::Reading::value_at))]
fn split_value(field: Field, bytes: &[u8]) -> Option<(Value<'_>, &[u8])>
    ensures { option_map (λ x. (value_of x.0, x.1.now)) result ≡ value_at field bytes.now }
{
    if field.is_nullable {
        split_marked(field, bytes)
    } else {
        split_content(field, bytes)
    }
}

fn split_marked(field: Field, bytes: &[u8]) -> Option<(Value<'_>, &[u8])>
    ensures { option_map (λ x. (value_of x.0, x.1.now)) result ≡ marked_at field.field_type field.length bytes.now }
{
    let [mark, rest @ ..] = bytes else {
        return None;
    };
    match *mark {
        ABSENT => Some((Value::Null, rest)),
        PRESENT => split_content(field, rest),
        _ => None,
    }
}

fn split_content(field: Field, bytes: &[u8]) -> Option<(Value<'_>, &[u8])>
    ensures { option_map (λ x. (value_of x.0, x.1.now)) result ≡ content_at field.field_type field.length bytes.now }
{
    match field.field_type {
        FieldType::SmallInt => {
            let (number, rest) = split_front(2, bytes)?;
            Some((Value::Number(i64::from(BigEndian::read_i16(number))), rest))
        }
        FieldType::Integer => {
            let (number, rest) = split_front(4, bytes)?;
            Some((Value::Number(i64::from(BigEndian::read_i32(number))), rest))
        }
        FieldType::BigInt => {
            let (number, rest) = split_front(8, bytes)?;
            Some((Value::Number(BigEndian::read_i64(number)), rest))
        }
        FieldType::FixedBytes => {
            let (content, rest) = split_front(usize::from(field.length), bytes)?;
            Some((Value::Bytes(content), rest))
        }
        FieldType::FixedText => {
            let (content, rest) = split_front(usize::from(field.length), bytes)?;
            Some((Value::Text(text_of(content)?), rest))
        }
        FieldType::VariableBytes => {
            let (content, rest) = split_counted(field.length, bytes)?;
            Some((Value::Bytes(content), rest))
        }
        FieldType::VariableText => {
            let (content, rest) = split_counted(field.length, bytes)?;
            Some((Value::Text(text_of(content)?), rest))
        }
    }
}

/// The text of these bytes, where they are UTF-8.
fn text_of(bytes: &[u8]) -> Option<&str>
    ensures { option_map (λ text. text.now) result ≡ utf8_in bytes.now }
{
    str::from_utf8(bytes).ok()
}

/// The content behind a length in front, with what follows.
#[tactic(auto, unfolding(crate::specs::Reading::counted_at))]
fn split_counted(limit: u16, bytes: &[u8]) -> Option<(&[u8], &[u8])>
    ensures { option_map (λ x. (x.0.now, x.1.now)) result ≡ counted_at limit bytes.now }
{
    let [high, low, rest @ ..] = bytes else {
        return None;
    };
    let count = u16::from_be_bytes([*high, *low]);
    if count > limit {
        return None;
    }
    split_front(usize::from(count), rest)
}

/// The first bytes, so many, with what follows.
#[tactic(auto, unfolding(crate::specs::Reading::front_of))]
fn split_front(count: usize, bytes: &[u8]) -> Option<(&[u8], &[u8])>
    ensures parts { option_map (λ x. (x.0.now, x.1.now)) result ≡ front_of count bytes.now }
    ensures len { IfSome result (λ x. length x.0.now ≡ count) }
{
    if bytes.len() < count {
        return None;
    }
    Some(bytes.split_at(count))
}
