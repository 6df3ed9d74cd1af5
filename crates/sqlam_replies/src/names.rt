//! Names that are answered.

ghost use Rattle.std.specs.Prelude.{◌≡◌, ◌<◌, ◌≤◌, ◌+◌, ◌++◌, OnOk, OnErr, length, take, vec_len, vec_capacity};
ghost use Rattle.sqlam_replies.specs.Names.{byte_in, in_encoding};

use ebcdic_500::byte_of;
use std::alloc::AllocError;

fn byte_in(unicode: bool, character: u8) -> u8
    ensures { result ≡ byte_in unicode character }
{
    if unicode {
        character
    } else {
        byte_of(char::from(character)).unwrap_or(0)
    }
}

/// Appends a text of printable ASCII in the encoding of names that are answered: UTF-8, or code page
/// 500. What was there stays.
pub(crate) fn push_name(out: &mut Vec<u8>, unicode: bool, text: &[u8]) -> Result<(), AllocError>
    ensures ok { OnOk result (out.new.items ≡ out.old.items ++ in_encoding unicode text.now) }
    ensures kept { take (vec_len out.old) out.new.items ≡ out.old.items }
    ensures full { OnErr result (vec_capacity out.old < vec_len out.old + length text.now) }
    ensures capacity { vec_capacity out.old ≤ vec_capacity out.new }
{
    for character in text {
        out.push(byte_in(unicode, *character))?;
    }
    Ok(())
}
