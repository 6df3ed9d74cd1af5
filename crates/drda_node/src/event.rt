//! The head of an event's record: what it is, and of which conversation.

ghost use Rattle.std.specs.Prelude.{◌≡◌, ◌∷◌, [], ◌++◌, ◌<◌, ◌^◌, OnOk, length};
ghost use Rattle.std.specs.Int.{w32, to_be_bytes, from_be_bytes};
ghost use Rattle.drda_node.specs.Reading.{IsHead, holds_record};
ghost use Rattle.drda_node.specs.Records.{record_text};

use std::alloc::AllocError;

/// What stands in front of a record's bytes: its kind, its number and its size.
pub(crate) const HEAD_SIZE: usize = 6;

/// The most bytes that one record brings.
pub(crate) const MAX_DATA_BYTES: usize = 65536;

/// An event without its bytes.
#[derive(Clone, Copy, Debug, PartialEq, Eq)]
pub(crate) enum Head {
    /// A conversation of this number is opened.
    Opens(u8),
    /// It sends so many bytes.
    Sends(u8, usize),
    /// It is lost.
    Loses(u8),
    /// The store is to be checkpointed; the number is given back.
    Checkpoints(u8),
}

/// The event of a record of this kind, number and length; None where there is none.
pub(crate) fn head_of(kind: u8, number: u8, size: usize) -> Option<Head>
    ensures { IsHead kind number size result }
{
    if kind == 1 && size == 0 {
        Some(Head::Opens(number))
    } else if kind == 2 && size <= MAX_DATA_BYTES {
        Some(Head::Sends(number, size))
    } else if kind == 3 && size == 0 {
        Some(Head::Loses(number))
    } else if kind == 4 && size == 0 {
        Some(Head::Checkpoints(number))
    } else {
        None
    }
}

/// The number that four bytes spell, the highest first.
pub(crate) fn number_in(first: u8, second: u8, third: u8, fourth: u8) -> u32
    ensures spells { to_be_bytes w32 result ≡ first ∷ second ∷ third ∷ fourth ∷ [] }
    ensures value { result ≡ from_be_bytes w32 (first ∷ second ∷ third ∷ fourth ∷ []) }
{
    u32::from_be_bytes([first, second, third, fourth])
}

/// Whether bytes begin with a whole record.
pub(crate) fn holds_record(bytes: &[u8]) -> bool
    ensures { result ≡ holds_record bytes.now }
{
    let [_, _, a, b, c, d, data @ ..] = bytes else {
        return false;
    };
    number_in(*a, *b, *c, *d) as usize <= data.len()
}

/// Appends a record.
pub(crate) fn push_record(
    text: &mut Vec<u8>,
    kind: u8,
    number: u8,
    contents: &[u8],
) -> Result<(), AllocError>
    requires { length contents.now < 2 ^ 32 }
    ensures { OnOk result (text.new.items ≡ text.old.items ++ record_text kind number contents.now) }
{
    let [a, b, c, d] = (contents.len() as u32).to_be_bytes();
    text.extend_from_slice(&[kind, number, a, b, c, d])?;
    text.extend_from_slice(contents)
}
