//! Fields of a descriptor: what stands at a place of each row.

ghost use Rattle.std.specs.Prelude.{◌≡◌};
ghost use Rattle.fdoca.specs.Types.{field_of, field_type_of, is_length};

/// What the values of a field are, and how they are written (DRDA V5 volume 2, "FD:OCA Data Types").
#[derive(Clone, Copy, Debug, Default, PartialEq, Eq)]
pub enum FieldType {
    /// A number of 2 bytes.
    #[default]
    SmallInt,
    /// A number of 4 bytes.
    Integer,
    /// A number of 8 bytes.
    BigInt,
    /// As many bytes as the field's length says.
    FixedBytes,
    /// As many bytes of text as the field's length says.
    FixedText,
    /// Bytes behind a length of 2 bytes.
    VariableBytes,
    /// Text behind a length of 2 bytes.
    VariableText,
}

/// A field of a descriptor.
#[derive(Clone, Copy, Debug, Default, PartialEq, Eq)]
pub struct Field {
    pub field_type: FieldType,
    /// Whether a mark stands before each value: 00, or FF in place of a value for NULL.
    pub is_nullable: bool,
    /// In bytes: those of a number or of a fixed value, and the most of a variable one.
    pub length: u16,
}

/// The field that a type's number and a length say, where there is such a type and a number has the
/// length of its type.
#[tactic(auto, unfolding(crate::specs::Types::field_of))]
pub(crate) fn field_of(number: u8, length: u16) -> Option<Field>
    ensures { result ≡ field_of number length }
{
    let field_type = field_type_of(number - number % 2)?;
    if !is_length(field_type, length) {
        return None;
    }
    Some(Field {
        field_type,
        is_nullable: number % 2 == 1,
        length,
    })
}

#[tactic(auto, unfolding(crate::specs::Types::field_type_of))]
fn field_type_of(number: u8) -> Option<FieldType>
    ensures { result ≡ field_type_of number }
{
    match number {
        0x02 => Some(FieldType::Integer),
        0x04 => Some(FieldType::SmallInt),
        0x16 => Some(FieldType::BigInt),
        0x26 => Some(FieldType::FixedBytes),
        0x28 => Some(FieldType::VariableBytes),
        0x2A => Some(FieldType::VariableBytes),
        0x30 => Some(FieldType::FixedText),
        0x32 => Some(FieldType::VariableText),
        0x34 => Some(FieldType::VariableText),
        0x3C => Some(FieldType::FixedText),
        0x3E => Some(FieldType::VariableText),
        0x40 => Some(FieldType::VariableText),
        _ => None,
    }
}

/// Whether a field of this type has this length: a number has that of its type.
fn is_length(field_type: FieldType, length: u16) -> bool
    ensures { result ≡ is_length field_type length }
{
    match field_type {
        FieldType::SmallInt => length == 2,
        FieldType::Integer => length == 4,
        FieldType::BigInt => length == 8,
        _ => true,
    }
}
