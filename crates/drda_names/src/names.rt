//! Names on the wire.

ghost use Rattle.std.specs.Prelude.{◌≡◌, ◌++◌, OnErr, OnOk, replicate, take, vec_len};
ghost use Rattle.std.specs.List.{list_all};
ghost use Rattle.drda_names.specs.Names.{is_ascii, stands_for, spells, spells_padded, is_name, is_padded_name, is_blank, byte_in, in_encoding, padded_in};
ghost use Rattle.drda_names.specs.Names as spec;

use ebcdic_500::{byte_of, char_of};
use std::alloc::AllocError;

fn is_ascii(bytes: &[u8]) -> bool
    ensures { result ≡ is_ascii bytes.now }
{
    bytes.iter().all(|b| *b < 0x80)
}

fn stands_for(is_utf8: bool, byte: u8, character: u8) -> bool
    ensures { result ≡ stands_for (spec.character is_utf8 byte) character }
{
    if is_utf8 {
        byte == character
    } else {
        char_of(byte) == Some(char::from(character))
    }
}

// Each byte is compared, also behind one that differs.
fn spells(is_utf8: bool, bytes: &[u8], text: &[u8]) -> bool
    ensures { result ≡ spells is_utf8 bytes.now text.now }
{
    let [b, bytes @ ..] = bytes else {
        return text.is_empty();
    };
    let [c, text @ ..] = text else {
        return false;
    };
    let others = spells(is_utf8, bytes, text);
    stands_for(is_utf8, *b, *c) && others
}

/// Whether a name that came is this text, which is ASCII. With `unicode` bytes below 80 are UTF-8; a
/// value with another byte is code page 500, and a byte outside its table makes it match nothing.
pub fn is_name(unicode: bool, bytes: &[u8], text: &[u8]) -> bool
    ensures { result ≡ is_name unicode bytes.now text.now }
{
    spells(unicode && is_ascii(bytes), bytes, text)
}

fn are_blank(is_utf8: bool, bytes: &[u8]) -> bool
    ensures { result ≡ list_all (is_blank is_utf8) bytes.now }
{
    bytes.iter().all(|b| stands_for(is_utf8, *b, b' '))
}

fn spells_padded(is_utf8: bool, bytes: &[u8], text: &[u8]) -> bool
    ensures { result ≡ spells_padded is_utf8 bytes.now text.now }
{
    if bytes.len() < text.len() {
        return false;
    }
    let (name, blanks) = bytes.split_at(text.len());
    spells(is_utf8, name, text) && are_blank(is_utf8, blanks)
}

/// Whether a name of a database that came is this one; blanks behind it do not count.
pub fn is_padded_name(unicode: bool, bytes: &[u8], text: &[u8]) -> bool
    ensures { result ≡ is_padded_name unicode bytes.now text.now }
{
    spells_padded(unicode && is_ascii(bytes), bytes, text)
}

fn byte_in(unicode: bool, character: u8) -> u8
    ensures { result ≡ byte_in unicode character }
{
    if unicode {
        character
    } else {
        byte_of(char::from(character)).unwrap_or(0)
    }
}

/// Appends a text of printable ASCII in the encoding of names that are answered: UTF-8, or code page
/// 500; or some of it, where memory is refused.
pub fn push_name(out: &mut Vec<u8>, unicode: bool, text: &[u8]) -> Result<(), AllocError>
    ensures ok { OnOk result (out.new.items ≡ out.old.items ++ in_encoding unicode text.now) }
    ensures err { OnErr result (take (vec_len out.old) out.new.items ≡ out.old.items) }
{
    for character in text {
        out.push(byte_in(unicode, *character))?;
    }
    Ok(())
}

fn push_blanks(out: &mut Vec<u8>, unicode: bool, count: usize) -> Result<(), AllocError>
    ensures ok { OnOk result (out.new.items ≡ out.old.items ++ replicate count (byte_in unicode 0x20)) }
    ensures err { OnErr result (take (vec_len out.old) out.new.items ≡ out.old.items) }
{
    for _ in 0..count {
        out.push(byte_in(unicode, b' '))?;
    }
    Ok(())
}

/// Appends a database's name, with blanks behind it up to 18 bytes; or some of that, where memory is
/// refused.
pub fn push_padded(out: &mut Vec<u8>, unicode: bool, name: &[u8]) -> Result<(), AllocError>
    ensures ok { OnOk result (out.new.items ≡ out.old.items ++ padded_in unicode name.now) }
    ensures err { OnErr result (take (vec_len out.old) out.new.items ≡ out.old.items) }
{
    push_name(out, unicode, name)?;
    push_blanks(out, unicode, 18_usize.saturating_sub(name.len()))
}
