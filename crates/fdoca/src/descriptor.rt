//! Descriptors.

ghost use Rattle.std.specs.Prelude.{◌≡◌, ◌<◌, IfSome, length, option_map};
ghost use Rattle.fdoca.specs.Reading.{continued_at, field_at, fields_at, fields_within};
ghost use Rattle.fdoca.specs.Calls.{GivesFields};

use crate::fault::DescriptorFault;
use crate::field::{Field, field_of};
use crate::values::KEPT_IN_PLACE;
use smallvec::SmallVec;
use std::alloc::Global;
use std::marker::Model;

/// The most fields of a descriptor.
const MOST_FIELDS: usize = 128;

/// A triplet that continues the fields of one before.
const CONTINUED: u8 = 0x7F;

/// The triplet that ends the description of a row.
const CLOSING: [u8; 6] = [0x06, 0x71, 0xE4, 0xD0, 0x00, 0x01];

/// The fields of the rows that a descriptor describes. Up to 16 are kept without an allocation.
#[derive(Drop)]
pub struct Descriptor {
    fields: SmallVec<Field, KEPT_IN_PLACE>,
}

impl Model for Descriptor {
    ghost use Rattle.std.specs.Prelude.{List};
    ghost use Rattle.fdoca.specs.declared.field.Field.{Field};

    ghost Value = { List Field };

    ghost view = { λ d. d.fields.items };
}

impl Descriptor {
    ghost use Rattle.std.specs.Prelude.{◌≡◌};
    ghost use Rattle.fdoca.specs.Reading.{descriptor_at};
    ghost use Rattle.fdoca.specs.Calls.{GivesFields, ReadsDescriptor};

    /// The descriptor that the data of an FDODSC are: a triplet of fields, others that continue it,
    /// and the closing one; what stands behind that is not looked at. `Malformed` exactly where the
    /// bytes are none, and `TooManyFields` past 128 fields, if they are one. Memory may be refused
    /// past 16 fields alone.
    pub fn parse(alloc: Global, bytes: &[u8]) -> Result<Descriptor, DescriptorFault>
        ensures { ReadsDescriptor bytes.now result }
    {
        Descriptor::read(alloc, bytes)
    }

    /// The fields, in order.
    pub fn fields(&self) -> &[Field]
        ensures { result.now ≡ self.now }
    {
        self.fields.as_slice()
    }

    #[tactic(auto, unfolding(crate::specs::Reading::descriptor_at))]
    fn read(alloc: Global, bytes: &[u8]) -> Result<Descriptor, DescriptorFault>
        ensures { GivesFields (descriptor_at bytes.now) result }
    {
        let [size, 0x76, 0xD0, rest @ ..] = bytes else {
            return Err(DescriptorFault::Malformed);
        };
        let Some(count) = fields_within(*size) else {
            return Err(DescriptorFault::Malformed);
        };
        Descriptor::read_fields(alloc, count, rest)
    }

    /// The fields from here on, where so many of a triplet are still to come.
    fn read_fields(alloc: Global, count: usize, bytes: &[u8]) -> Result<Descriptor, DescriptorFault>
        ensures { GivesFields (fields_at count bytes.now) result }
    {
        let mut fields = SmallVec::new(alloc);
        let mut left = count;
        let mut rest = bytes;
        'reading: while !rest.is_empty() {
            if left > 0 {
                let Some((field, behind)) = split_field(rest) else {
                    return Err(DescriptorFault::Malformed);
                };
                if fields.len() == MOST_FIELDS {
                    return Err(DescriptorFault::TooManyFields);
                }
                fields.push(field)?;
                left -= 1;
                rest = behind;
            } else {
                let Some((count, behind)) = split_continued(rest) else {
                    if !rest.starts_with(&CLOSING) {
                        return Err(DescriptorFault::Malformed);
                    }
                    return Ok(Descriptor { fields });
                };
                left = count;
                rest = behind;
            }
        }
        Err(DescriptorFault::Malformed)
    }
}

/// The field in front, with what follows.
#[tactic(auto, unfolding(crate::specs::Reading::field_at))]
fn split_field(bytes: &[u8]) -> Option<(Field, &[u8])>
    ensures parts { option_map (λ x. (x.0, x.1.now)) result ≡ field_at bytes.now }
    ensures shorter { IfSome result (λ x. length x.1.now < length bytes.now) }
{
    let [number, high, low, rest @ ..] = bytes else {
        return None;
    };
    let field = field_of(*number, u16::from_be_bytes([*high, *low]))?;
    Some((field, rest))
}

/// How many fields the triplet in front has, where it continues the one before, with what follows its
/// head.
#[tactic(auto, unfolding(crate::specs::Reading::continued_at))]
fn split_continued(bytes: &[u8]) -> Option<(usize, &[u8])>
    ensures parts { option_map (λ x. (x.0, x.1.now)) result ≡ continued_at bytes.now }
    ensures shorter { IfSome result (λ x. length x.1.now < length bytes.now) }
{
    let [size, CONTINUED, _, rest @ ..] = bytes else {
        return None;
    };
    let count = fields_within(*size)?;
    Some((count, rest))
}

/// How many fields a triplet of this length has.
fn fields_within(size: u8) -> Option<usize>
    ensures { result ≡ fields_within size }
{
    if size >= 3 && size % 3 == 0 {
        Some(usize::from((size - 3) / 3))
    } else {
        None
    }
}
