//! Whole texts, from code page 500 and into it.

ghost use Rattle.std.specs.Prelude.{◌≡◌, IfOk};
ghost use Rattle.std.specs.Str.{chars};
ghost use Rattle.ebcdic_500.specs.CodePage.{Decodes, Encodes};

use crate::fault::CodePageError;
use crate::table::{byte_of, char_of};
use std::alloc::{AllocError, Global};

/// The text that bytes in code page 500 stand for, or NotInTable with the first byte that stands
/// for no character.
pub fn decode(alloc: Global, bytes: &[u8]) -> Result<String, CodePageError>
    ensures { Decodes bytes.now result }
{
    let mut text = String::new(alloc);
    for (i, byte) in bytes.iter().enumerate() {
        match char_of(*byte) {
            Some(character) => text.push(character)?,
            None => return Err(CodePageError::NotInTable { at: i }),
        }
    }
    Ok(text)
}

/// The bytes in code page 500 that stand for a text, or NotInTable with the first character that
/// has none.
pub fn encode(alloc: Global, text: &str) -> Result<Vec<u8>, CodePageError>
    ensures { Encodes (chars text.now) result }
{
    let characters = chars_of(alloc, text)?;
    encode_chars(alloc, &characters)
}

#[tactic(auto, using(std::proofs::lemmas::Str::chars_from_encodes))]
fn chars_of(alloc: Global, text: &str) -> Result<Vec<char>, AllocError>
    ensures { IfOk result (λ v. v.items ≡ chars text.now) }
{
    text.chars().collect(alloc)
}

fn encode_chars(alloc: Global, characters: &[char]) -> Result<Vec<u8>, CodePageError>
    ensures { Encodes characters.now result }
{
    let mut bytes = Vec::new(alloc);
    for (i, character) in characters.iter().enumerate() {
        match byte_of(*character) {
            Some(byte) => bytes.push(byte)?,
            None => return Err(CodePageError::NotInTable { at: i }),
        }
    }
    Ok(bytes)
}
