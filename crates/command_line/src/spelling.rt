//! XIDs in words.

ghost use Rattle.std.specs.Prelude.{◌≡◌, ◌++◌, IfOk, option_map, string_bytes, vec_items};
ghost use Rattle.std.specs.Int.{to_be_bytes, w32};
ghost use Rattle.command_line.specs.Spelling as spec;

use crate::numbers::number_in;
use hex::FromHexError;
use std::alloc::{AllocError, Global};
use xa_calls::Xid;

/// The words of an XID, with blanks between them: its format number in decimal, and its two parts in hexadecimal digits
/// in lower case, each a hyphen where it is empty.
pub fn xid_text(alloc: Global, xid: &Xid) -> Result<String, AllocError>
    ensures { IfOk result (λ text. string_bytes text ≡ spec.xid_text xid.now) }
{
    let format = xid.format();
    let global = part_word(alloc, xid.global())?;
    let branch = part_word(alloc, xid.branch())?;
    format!(in alloc; "{format} {global} {branch}")
}

/// The same in one word, with colons in the place of the blanks.
pub fn xid_word(alloc: Global, xid: &Xid) -> Result<String, AllocError>
    ensures { IfOk result (λ word. string_bytes word ≡ spec.xid_word xid.now) }
{
    let format = xid.format();
    let global = part_word(alloc, xid.global())?;
    let branch = part_word(alloc, xid.branch())?;
    format!(in alloc; "{format}:{global}:{branch}")
}

/// What is printed of an XID reads back to it, and so do its digits in the other case; no other words are read as it.
pub fn words_spell_one_xid()
    ensures only { spec.OnlyItsWordsAreRead }
    ensures read { spec.ItsWordsAreRead }
    ensures printed { spec.PrintedReadsBack }
{}

/// The XID that one word spells: its three parts with colons between them.
pub(crate) fn xid_in_one(alloc: Global, text: &str) -> Result<Option<Xid>, AllocError>
    ensures { IfOk result (λ found. found ≡ spec.xid_in_one text.now) }
{
    let Some((format, rest)) = split_at_colon(text) else {
        return Ok(None);
    };
    let Some((global, branch)) = split_at_colon(rest) else {
        return Ok(None);
    };
    xid_in(alloc, format, global, branch)
}

// What stands in front of the first colon, and what stands behind it.
fn split_at_colon<'a>(text: &'a str) -> Option<(&'a str, &'a str)>
    ensures { option_map (λ p. (p.0.now, p.1.now)) result ≡ spec.split_at_colon text.now }
{
    let (front, rest) = text.split_once(':')?;
    Some((front, rest))
}

/// The XID that three words spell as `xid_text` does, with digits in either case. None where they are no such words, or what
/// they say is no XID's.
pub(crate) fn xid_in(
    alloc: Global,
    format: &str,
    global: &str,
    branch: &str,
) -> Result<Option<Xid>, AllocError>
    ensures { IfOk result (λ found. found ≡ spec.xid_said format.now global.now branch.now) }
{
    let Some(format) = format_in(alloc, format)? else {
        return Ok(None);
    };
    let Some(global) = part_in(alloc, global)? else {
        return Ok(None);
    };
    let Some(branch) = part_in(alloc, branch)? else {
        return Ok(None);
    };
    xid_of(alloc, format, &global, &branch)
}

// A part as it is printed.
fn part_word(alloc: Global, part: &[u8]) -> Result<String, AllocError>
    ensures { IfOk result (λ text. string_bytes text ≡ spec.part_word part.now) }
{
    if part.is_empty() {
        String::from_str(alloc, "-")
    } else {
        hex::encode(alloc, part)
    }
}

// The format number that is printed so.
fn format_in(alloc: Global, text: &str) -> Result<Option<u32>, AllocError>
    ensures { IfOk result (λ found. found ≡ spec.format_in text.now) }
{
    let Some(number) = number_in(text) else {
        return Ok(None);
    };
    if number > u32::MAX as u64 {
        return Ok(None);
    }
    let printed = format!(in alloc; "{number}")?;
    if text == printed.as_str() {
        Ok(Some(number as u32))
    } else {
        Ok(None)
    }
}

// The bytes that a part's word says: none by a hyphen.
fn part_in(alloc: Global, text: &str) -> Result<Option<Vec<u8>>, AllocError>
    ensures { IfOk result (λ found. option_map vec_items found ≡ spec.part_in text.now) }
{
    if text == "-" {
        Ok(Some(Vec::new(alloc)))
    } else {
        bytes_in(alloc, text)
    }
}

// The bytes that pairs of digits say, one at least.
fn bytes_in(alloc: Global, text: &str) -> Result<Option<Vec<u8>>, AllocError>
    ensures { IfOk result (λ found. option_map vec_items found ≡ spec.bytes_in text.now) }
{
    let bytes = bytes_said(alloc, text)?;
    if bytes.is_empty() {
        Ok(None)
    } else {
        Ok(Some(bytes))
    }
}

// What pairs of digits say, and nothing of another text.
fn bytes_said(alloc: Global, text: &str) -> Result<Vec<u8>, AllocError>
    ensures { IfOk result (λ bytes. vec_items bytes ≡ spec.bytes_said text.now) }
{
    match hex::decode(alloc, text) {
        Ok(bytes) => Ok(bytes),
        Err(FromHexError::OutOfMemory) => Err(AllocError),
        Err(
            FromHexError::InvalidHexCharacter { .. }
            | FromHexError::OddLength
            | FromHexError::InvalidStringLength,
        ) => Ok(Vec::new(alloc)),
    }
}

// The XID of these parts, if they are an XID's.
fn xid_of(
    alloc: Global,
    format: u32,
    global: &[u8],
    branch: &[u8],
) -> Result<Option<Xid>, AllocError>
    ensures { IfOk result (λ found. found ≡ spec.xid_of (record { format = format; global = global.now; branch = branch.now })) }
{
    let Ok(global_length) = u32::try_from(global.len()) else {
        return Ok(None);
    };
    let Ok(branch_length) = u32::try_from(branch.len()) else {
        return Ok(None);
    };
    let bytes = wire_of(alloc, format, global_length, branch_length, global, branch)?;
    Ok(Xid::read(&bytes).ok())
}

// The bytes that write parts of such lengths.
fn wire_of(
    alloc: Global,
    format: u32,
    global_length: u32,
    branch_length: u32,
    global: &[u8],
    branch: &[u8],
) -> Result<Vec<u8>, AllocError>
    ensures { IfOk result (λ bytes. vec_items bytes ≡ to_be_bytes w32 format ++ (to_be_bytes w32 global_length ++ (to_be_bytes w32 branch_length ++ (global.now ++ branch.now)))) }
{
    let mut bytes = Vec::new(alloc);
    bytes.extend_from_slice(&format.to_be_bytes())?;
    bytes.extend_from_slice(&global_length.to_be_bytes())?;
    bytes.extend_from_slice(&branch_length.to_be_bytes())?;
    bytes.extend_from_slice(global)?;
    bytes.extend_from_slice(branch)?;
    Ok(bytes)
}
